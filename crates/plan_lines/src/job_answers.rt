//! The first answer of a text: the job of its job lines, or a refusal.
ghost use Rattle.std.specs.Prelude.{◌≡◌, [], ◌∷◌, ◌++◌, ℕ, List, Err, IfSome, IsNone};
ghost use Rattle.plan_lines.specs.declared.item.CertFault.TheVariants.{Unended};
ghost use Rattle.plan_lines.specs.Facts.{HasFew};
ghost use Rattle.cert_lines.specs.JobLines.{job_lines_data, no_lines};
ghost use Rattle.plan_lines.specs.Items.{items, items_behind, job_items, may_be_judged};
ghost use Rattle.cert_lines.specs.LineReading.{lines_in};
ghost use Rattle.plan_lines.specs.PlanItem.{job_answer};
ghost use Rattle.cert_lines.specs.LineReading.{IsBehind};
ghost use Rattle.plan_lines.specs.Reading.{GivesNext, HoldsBefore, IsJudged};

use crate::item::CertFault;
use crate::job_facts::JobFacts;
use crate::line_place::{LinePlace, next_number};
use crate::plan_reader::{PlanReader, refuse};
use crate::plan_reading::{first_section, may_follow_job};
use cert_lines::{Format, JobLines, TextKind, format_of, whole_line};
use job_setup::{Job, job_from};

/// What stands behind the job lines from here on: its first line, where that is whole, the text from
/// there on, and the line's number.
fn behind_job_lines<'a>(
    lines: &mut JobLines,
    text: &'a [u8],
    number: u32,
) -> (Option<&'a [u8]>, &'a [u8], u32)
    ensures some { IfSome result.0 (λ line. (behind : List ℕ) → (more : List (List ℕ))
        × (lines_in (result.1.now ++ behind) ≡ line.now ∷ more)
        × (job_items number (job_lines_data lines.old) (lines_in (text.now ++ behind))
        ≡ items_behind result.2 (job_lines_data lines.new) line.now more)) }
    ensures none { IsNone result.0 → (behind : List ℕ) → behind ≡ []
        → job_items number (job_lines_data lines.old) (lines_in (text.now ++ behind))
        ≡ Err Unended ∷ [] }
    ensures rest { IsBehind text.now result.1.now }
{
    let mut rest = text;
    let mut at = number;
    while let Some((line, behind)) = whole_line(rest) {
        let Some(()) = lines.take_line(line) else {
            return (Some(line), rest, at);
        };
        rest = behind;
        at = next_number(at);
    }
    (None, rest, at)
}

/// The job of the job lines, where they are a valid one.
fn judge(lines: JobLines) -> Option<Job>
    ensures { IsJudged result (job_lines_data lines) }
{
    if !lines.is_sound {
        return None;
    }
    job_from(lines.part, lines.q, lines.setup)
}

/// Whether the job lines are complete, and the line may follow them.
fn may_be_judged(lines: &JobLines, line: &[u8]) -> bool
    ensures { result ≡ may_be_judged (job_lines_data lines.now) line.now }
{
    lines.is_complete() && may_follow_job(lines.format, lines.bends(), lines.stages(), line)
}

/// The job of the job lines, behind which the lines of the plan are left, or its refusal.
fn judged_job(
    reader: &mut PlanReader,
    lines: JobLines,
    line: &[u8],
    number: u32,
) -> Result<Job, CertFault>
    requires { HasFew reader.old.place.facts }
    ensures given { (behind : List ℕ) (others : List (List ℕ))
        → lines_in (reader.old.rest.now ++ behind) ≡ line.now ∷ others
        → GivesNext (items_behind number (job_lines_data lines) line.now others)
        (job_answer result) reader.new.place (reader.new.rest.now ++ behind) }
    ensures few { HasFew reader.new.place.facts }
    ensures rest { reader.new.rest.now ≡ reader.old.rest.now }
{
    if !may_be_judged(&lines, line) {
        return Err(refuse(reader, CertFault::BadLine { line: number }));
    }
    let format = lines.format;
    match judge(lines) {
        Some(job) => {
            reader.place = LinePlace {
                number,
                section: first_section(format),
                facts: JobFacts::new(format, &job),
            };
            Ok(job)
        }
        None => Err(refuse(reader, CertFault::BadJob)),
    }
}

/// The job, or a refusal, behind the line of the format.
fn job_in<'a>(reader: &mut PlanReader<'a>, format: Format, text: &'a [u8]) -> Result<Job, CertFault>
    requires { HasFew reader.old.place.facts }
    ensures given { (behind : List ℕ) → HoldsBefore (job_answer result) behind
        → GivesNext (job_items 2 (no_lines format) (lines_in (text.now ++ behind)))
        (job_answer result) reader.new.place (reader.new.rest.now ++ behind) }
    ensures few { HasFew reader.new.place.facts }
    ensures rest { IsBehind text.now reader.new.rest.now }
{
    let mut lines = JobLines::new(format);
    let (first, rest, number) = behind_job_lines(&mut lines, text, 2);
    reader.rest = rest;
    match first {
        Some(line) => judged_job(reader, lines, line, number),
        None => Err(refuse(reader, CertFault::Unended)),
    }
}

/// The first answer: the job, or a refusal.
pub fn first_answer(kind: TextKind, reader: &mut PlanReader) -> Result<Job, CertFault>
    requires { HasFew reader.old.place.facts }
    ensures given { (behind : List ℕ) → HoldsBefore (job_answer result) behind
        → GivesNext (items kind (reader.old.rest.now ++ behind)) (job_answer result)
        reader.new.place (reader.new.rest.now ++ behind) }
    ensures few { HasFew reader.new.place.facts }
    ensures rest { IsBehind reader.old.rest.now reader.new.rest.now }
{
    match whole_line(reader.rest) {
        Some((line, rest)) => match format_of(kind, line) {
            Some(format) => job_in(reader, format, rest),
            None => Err(refuse(reader, CertFault::BadLine { line: 1 })),
        },
        None => Err(refuse(reader, CertFault::Unended)),
    }
}
