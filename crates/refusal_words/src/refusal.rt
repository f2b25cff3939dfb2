//! The refusal that a line is, by its rows.
ghost use Rattle.std.specs.Prelude.{◌≡◌, map, option_map};
ghost use Rattle.cert_words.specs.LineWords.{Reads};
ghost use Rattle.refusal_words.specs.Rows.{begun_data};
ghost use Rattle.refusal_words.specs.Sentences.{refusal_data, is_end, ended, ended_by, refusal_in, beginning_of, refusal_by};

use crate::row::{Begun, begin};
use crate::rows::{JOB_BEGINNING, SETUP_JOB_BEGINNING};
use crate::subject::Subject;

/// A refusal by its two rows: how its line begins, and how it ends.
#[derive(Clone, Copy, Debug)]
pub struct Refusal<'a> {
    pub beginning: Begun<'a>,
    pub end: Begun<'a>,
}

/// Whether the row is the end of a line.
#[tactic(auto, unfolding(crate::specs::Sentences::is_end))]
fn is_end(row: &str) -> bool
    ensures { result ≡ is_end row.now }
{
    row.as_bytes().starts_with(b" ")
}

/// The refusal of this beginning that a row ends. None where the row doesn't end its line.
fn ended<'a>(beginning: Begun<'a>, row: &'static str) -> Option<Refusal<'a>>
    ensures { Reads refusal_data result (ended (begun_data beginning.entry) row.now) }
{
    let end = begin(row, beginning.rest)?;
    if end.rest.is_empty() {
        Some(Refusal { beginning, end })
    } else {
        None
    }
}

/// The same, where there is a beginning.
fn ended_by<'a>(beginning: Option<Begun<'a>>, row: &'static str) -> Option<Refusal<'a>>
    ensures { Reads refusal_data result (ended_by (option_map begun_data beginning.entry) row.now) }
{
    ended(beginning?, row)
}

/// The refusal that a text is by the first of these rows that ends its line, with the beginning by the
/// last row before them that is one.
fn refusal_in<'a>(
    rows: &'static [&'static str],
    text: &'a [u8],
    beginning: Option<Begun<'a>>,
) -> Option<Refusal<'a>>
    ensures { Reads refusal_data result
        (refusal_in (map (λ row. row.now) rows.now) text.now (option_map begun_data beginning.entry)) }
{
    match rows {
        [] => None,
        [row, rows @ ..] => {
            if !is_end(row) {
                return refusal_in(rows, text, begin(row, text));
            }
            match ended_by(beginning, row) {
                Some(refusal) => Some(refusal),
                None => refusal_in(rows, text, beginning),
            }
        }
    }
}

/// How a text begins as the lines of a subject do, where its rows don't say it.
fn beginning_of<'a>(subject: Subject, text: &'a [u8]) -> Option<Begun<'a>>
    ensures { Reads begun_data result (beginning_of subject text.now) }
{
    match subject {
        Subject::Job => begin(JOB_BEGINNING, text),
        Subject::SetupJob => begin(SETUP_JOB_BEGINNING, text),
        _ => None,
    }
}

/// The refusal that a text is by the first of these subjects that has it.
pub fn refusal_by<'a>(subjects: &[Subject], text: &'a [u8]) -> Option<Refusal<'a>>
    ensures { Reads refusal_data result (refusal_by subjects.now text.now) }
{
    match subjects {
        [] => None,
        [subject, subjects @ ..] => match refusal_in(
            subject.rows(),
            text,
            beginning_of(*subject, text),
        ) {
            Some(refusal) => Some(refusal),
            None => refusal_by(subjects, text),
        },
    }
}
