//! The answers behind the job, each of one line.
ghost use Rattle.std.specs.Prelude.{◌≡◌, ◌<◌, ◌≤◌, ◌++◌, ◌∷◌, [], ℕ, IfOk, IfSome, IsNone, List, length, Result, Ok};
ghost use Rattle.brake_base.specs.Actions.{number_of_action};
ghost use Rattle.job_setup.specs.Setup.{JobData};
ghost use Rattle.plan_lines.specs.declared.item.Item.{Item};
ghost use Rattle.plan_lines.specs.declared.item.Item.TheVariants as given;
ghost use Rattle.plan_lines.specs.declared.section.Section.TheVariants as sections;
ghost use Rattle.plan_lines.specs.Facts.{KeepsFacts, HasFew};
ghost use Rattle.cert_lines.specs.LineReading.{lines_in};
ghost use Rattle.plan_lines.specs.Items.{end_before, end_or_fault, plan_item};
ghost use Rattle.plan_lines.specs.PlanItem.{item_of, plan_answer};
ghost use Rattle.plan_lines.specs.NoteLines.{IsKnown};
ghost use Rattle.cert_lines.specs.LineReading.{IsBehind, IsCut};
ghost use Rattle.plan_lines.specs.Reading.{IsNextLine, LeavesAt, GivesNext, HoldsBefore};

use crate::item::{CertFault, PlanItem};
use crate::job_facts::JobFacts;
use crate::leading_row::leading_row;
use crate::line_place::LinePlace;
use crate::note::KnownNote;
use crate::note_lines::NoteLines;
use crate::plan_reader::{PlanReader, pass_line, refuse};
use crate::plan_reading::{
    is_end_line, may_be_row, may_leave, noted, plan_line_of, take_plan_line,
};
use crate::section::{PlanLine, Section};
use cert_lines::{RowHead, whole_line};
use cert_words::{note, split_word};

/// The answer behind the job: what its line gives, or the refusal.
pub fn answer_behind_job(reader: &mut PlanReader) -> Result<PlanItem, CertFault>
    requires few { HasFew reader.old.place.facts }
    ensures given { (behind : List ℕ) (answers : List (Result Item CertFault))
        → LeavesAt reader.old.place (reader.old.rest.now ++ behind) answers → 0 < length answers
        → HoldsBefore (plan_answer result) behind
        → GivesNext answers (plan_answer result) reader.new.place
        (reader.new.rest.now ++ behind) }
    ensures few { HasFew reader.new.place.facts }
    ensures rest { IsBehind reader.old.rest.now reader.new.rest.now }
    ensures shorter { IfOk result
        (λ _. length reader.new.rest.now < length reader.old.rest.now) }
{
    match next_line(&reader.place, reader.rest) {
        Some((answer, section, rest)) => {
            pass_line(reader, section, rest);
            answer
        }
        None => Err(refuse(reader, CertFault::Unended)),
    }
}

/// The answer of a text's first line, where the next one stands, and the text behind it. `None` where
/// the text has no whole line.
fn next_line<'a>(
    place: &LinePlace,
    text: &'a [u8],
) -> Option<(Result<PlanItem, CertFault>, Section, &'a [u8])>
    requires { HasFew place.now.facts }
    ensures some { IfSome result
        (λ x. IsNextLine place.now text.now (plan_answer x.0, x.1) x.2.now) }
    ensures none { IsNone result → lines_in text.now ≡ text.now ∷ [] }
{
    match whole_line(text) {
        Some((line, rest)) => {
            let (answer, section) = plan_item(place, line, rest);
            Some((answer, section, rest))
        }
        None => None,
    }
}

/// The row whose line stands at the front of a text, where it may stand there, and the text behind
/// the line.
#[tactic(auto, using(crate::proofs::PlanItems::row_next))]
pub fn next_row<'a>(place: &LinePlace, text: &'a [u8]) -> Option<(RowHead, &'a [u8])>
    requires { HasFew place.now.facts }
    ensures { IfSome result (λ x. IsNextLine place.now text.now
        (Ok (given.Row x.0), sections.Notes x.0.key 0) x.1.now) }
{
    let facts = &place.facts;
    match leading_row(text, facts) {
        Some((row, rest)) if may_be_row(facts.format, facts.bends, &place.section, &row.key) => {
            Some((row, rest))
        }
        _ => None,
    }
}

/// What a line behind the job gives, and where the next one stands.
#[tactic(auto, using(crate::proofs::PlanItems::item_taken))]
fn plan_item(place: &LinePlace, line: &[u8], rest: &[u8]) -> (Result<PlanItem, CertFault>, Section)
    requires { HasFew place.now.facts }
    ensures { (job : JobData) (behind : List ℕ) → KeepsFacts place.now.facts job
        → HoldsBefore (plan_answer result.0) behind
        → (plan_answer result.0, result.1)
        ≡ plan_item place.now.facts.format job place.now.number place.now.section line.now
        (lines_in (rest.now ++ behind)) }
{
    match take_plan_line(&place.facts, &place.section, line) {
        Some((item, next)) => (Ok(item), next),
        None => (end_or_fault(place, line, rest), Section::Over),
    }
}

/// The end, where nothing stands behind its line, or the refusal of a line.
fn end_or_fault(place: &LinePlace, line: &[u8], rest: &[u8]) -> Result<PlanItem, CertFault>
    ensures { (job : JobData) (behind : List ℕ) → KeepsFacts place.now.facts job
        → HoldsBefore (plan_answer result) behind
        → plan_answer result
        ≡ end_or_fault place.now.facts.format job place.now.number place.now.section line.now
        (lines_in (rest.now ++ behind)) }
{
    if !is_end_line(line) || !may_leave(place.facts.format, place.facts.bends, &place.section) {
        return Err(CertFault::BadLine { line: place.number });
    }
    end_before(rest)
}

/// The end, where nothing stands behind its line.
#[tactic(auto, using(crate::proofs::PlanItems::ended_by, crate::proofs::PlanItems::trailing_by))]
fn end_before(rest: &[u8]) -> Result<PlanItem, CertFault>
    ensures { (behind : List ℕ) → HoldsBefore (plan_answer result) behind
        → plan_answer result ≡ end_before (lines_in (rest.now ++ behind)) }
{
    if rest.is_empty() {
        Ok(PlanItem::End)
    } else {
        Err(CertFault::Trailing)
    }
}

/// The note of a text's first line, in a job of so many bends and stages, and the text behind the
/// line; `None` where the line is no line of a note.
fn first_note<'a>(text: &'a [u8], bends: u8, stages: u8) -> Option<(KnownNote<'a>, &'a [u8])>
    requires { bends ≤ 12 }
    ensures known { IfSome result (λ x. IsKnown bends stages x.0) }
    ensures cut { IfSome result (λ x. IsCut text.now x.0.line.now x.1.now) }
{
    let (line, rest) = whole_line(text)?;
    let (keyword, words) = split_word(line);
    match plan_line_of(keyword) {
        Some(PlanLine::Note) => {
            let (action, reason) = note(words, bends, stages)?;
            let note = KnownNote {
                line,
                action,
                reason,
            };
            Some((note, rest))
        }
        _ => None,
    }
}

/// The same, where the line was read before without reading its words.
fn front_note<'a>(
    known: &NoteLines<'a>,
    facts: &JobFacts,
    text: &'a [u8],
) -> Option<(KnownNote<'a>, &'a [u8])>
    requires { facts.now.bends ≤ 12 }
    ensures known { IfSome result (λ x. IsKnown facts.now.bends facts.now.stages x.0) }
    ensures cut { IfSome result (λ x. IsCut text.now x.0.line.now x.1.now) }
{
    match known.read_before(facts, text) {
        Some(read) => Some(read),
        None => first_note(text, facts.bends, facts.stages),
    }
}

/// The note whose line stands at the front of the text, where it may stand there, with its item; and
/// where the next line stands, and the text behind the line.
#[tactic(auto, using(crate::proofs::PlanItems::known_among))]
pub fn next_noted<'a>(
    known: &NoteLines<'a>,
    place: &LinePlace,
    text: &'a [u8],
) -> Option<(KnownNote<'a>, PlanItem, Section, &'a [u8])>
    requires { HasFew place.now.facts }
    ensures known { IfSome result
        (λ x. IsKnown place.now.facts.bends place.now.facts.stages x.0) }
    ensures item { IfSome result (λ x. item_of x.1
        ≡ given.Note (number_of_action place.now.facts.stages x.0.action) x.0.reason) }
    ensures next { IfSome result
        (λ x. IsNextLine place.now text.now (Ok (item_of x.1), x.2) x.3.now) }
{
    let facts = &place.facts;
    match &place.section {
        Section::Notes(key, least) => {
            let (note, rest) = front_note(known, facts, text)?;
            let (item, section) = noted(facts, key, *least, note.action, note.reason)?;
            Some((note, item, section, rest))
        }
        _ => None,
    }
}
