//! Reading the lines behind the job: which line may stand where, and what it gives.
ghost use Rattle.std.specs.Prelude.{◌≡◌, ◌+◌, ◌≤◌, ◌<◌, nat_lt, ℕ, IsTrue, Some, IfSome};
ghost use Rattle.brake_base.specs.Actions.{IsActionAmong, number_of_action};
ghost use Rattle.job_setup.specs.Setup.{JobData};
ghost use Rattle.plan_lines.specs.declared.item.Item.TheVariants as given;
ghost use Rattle.plan_lines.specs.declared.section.Section.TheVariants as sections;
ghost use Rattle.plan_lines.specs.declared.section.PlanLine.TheVariants as kinds;
ghost use Rattle.cert_lines.specs.LineReading.{only_if, keyword_in, behind_keyword};
ghost use Rattle.cert_words.specs.LineWords.{Reads};
ghost use Rattle.plan_lines.specs.Facts.{KeepsFacts};
ghost use Rattle.plan_lines.specs.PlanItem.{item_of, placed};
ghost use Rattle.plan_lines.specs.PlanReading.{behind_claim, are_enough, may_leave, may_be_row, give_read, noted, plan_line_of, plan_words_in, plan_line_in, take_plan_line, is_end_line, is_claim_line, is_row_line, may_follow_job, first_section};

use crate::item::PlanItem;
use crate::job_facts::JobFacts;
use crate::section::{PlanLine, Section};
use brake_base::{Action, Key, Reason, Step, Worth, action_number};
use cert_lines::{Format, RowHead};
use cert_words::{claim, note, row, split_word, step};

/// Where the line behind the claim stands.
fn behind_claim(claim: Worth) -> Section
    ensures { result ≡ behind_claim claim }
{
    match claim {
        Worth::Cost(_) => Section::Steps(0),
        Worth::Blocked => Section::Rows,
    }
}

/// Whether so many steps are enough for so many bends: in version 1 there is one for each bend.
fn are_enough(format: Format, bends: u8, steps: u8) -> bool
    ensures { result ≡ are_enough format bends steps }
{
    match format {
        Format::Version1 => steps == bends,
        _ => true,
    }
}

/// Whether a row or the end may stand here, but for the order of rows.
pub fn may_leave(format: Format, bends: u8, section: &Section) -> bool
    ensures { result ≡ may_leave format bends section.now }
{
    match section {
        Section::Steps(steps) => are_enough(format, bends, *steps),
        Section::Rows | Section::Notes(..) => true,
        _ => false,
    }
}

/// Whether a row of this key may stand here.
pub fn may_be_row(format: Format, bends: u8, section: &Section, key: &Key) -> bool
    ensures { result ≡ may_be_row format bends section.now key.now }
{
    match section {
        Section::Notes(last, _) => last.is_before(key),
        _ => may_leave(format, bends, section),
    }
}

/// The claim, where it may stand.
#[tactic(auto, unfolding(crate::specs::PlanReading::give, crate::specs::PlanReading::plan_words_in))]
fn take_claim(facts: &JobFacts, section: &Section, text: &[u8]) -> Option<(PlanItem, Section)>
    ensures { (job : JobData) → Reads placed result
        (give_read facts.now.format job section.now
        (plan_words_in facts.now.bends facts.now.stages kinds.Claim text.now)) }
{
    let claim = claim(text)?;
    match section {
        Section::Claim => Some((PlanItem::Claim(claim), behind_claim(claim))),
        _ => None,
    }
}

/// A step, where it may stand: there is at most one for each bend.
#[tactic(auto, unfolding(crate::specs::PlanReading::give, crate::specs::PlanReading::plan_words_in))]
fn take_step(facts: &JobFacts, section: &Section, text: &[u8]) -> Option<(PlanItem, Section)>
    requires { facts.now.bends ≤ 12 }
    ensures { (job : JobData) → KeepsFacts facts.now job → Reads placed result
        (give_read facts.now.format job section.now
        (plan_words_in facts.now.bends facts.now.stages kinds.Step text.now)) }
{
    let step = step(text, facts.bends, facts.stages)?;
    match section {
        Section::Steps(steps) => step_behind(facts, *steps, step),
        _ => None,
    }
}

/// A step behind so many steps.
fn step_behind(facts: &JobFacts, steps: u8, step: Step) -> Option<(PlanItem, Section)>
    requires { facts.now.bends ≤ 12 }
    ensures { Reads placed result (only_if (nat_lt steps facts.now.bends)
        (Some (given.Step step, sections.Steps (steps + 1)))) }
{
    if steps < facts.bends {
        Some((PlanItem::Step(step), Section::Steps(steps + 1)))
    } else {
        None
    }
}

/// A row, where it may stand.
#[tactic(auto, unfolding(crate::specs::PlanReading::give, crate::specs::PlanReading::plan_words_in))]
fn take_row(facts: &JobFacts, section: &Section, text: &[u8]) -> Option<(PlanItem, Section)>
    requires { facts.now.bends ≤ 12 }
    ensures { (job : JobData) → KeepsFacts facts.now job → Reads placed result
        (give_read facts.now.format job section.now
        (plan_words_in facts.now.bends facts.now.stages kinds.Row text.now)) }
{
    let (key, worth) = row(text, facts.bends, facts.stages)?;
    if may_be_row(facts.format, facts.bends, section, &key) {
        Some((
            PlanItem::Row(RowHead { key, worth }),
            Section::Notes(key, 0),
        ))
    } else {
        None
    }
}

/// A note at a key, where its action's number is at least the least one.
#[tactic(auto, unfolding(crate::specs::PlanReading::noted))]
pub fn noted(
    facts: &JobFacts,
    key: &Key,
    least: u8,
    action: Action,
    reason: Reason,
) -> Option<(PlanItem, Section)>
    requires bends { facts.now.bends ≤ 12 }
    requires stages { facts.now.stages ≤ 6 }
    requires action { IsActionAmong facts.now.bends facts.now.stages action }
    ensures placed { (job : JobData) → KeepsFacts facts.now job
        → Reads placed result (noted job key.now least action reason) }
    ensures item { IfSome result (λ x. item_of x.0
        ≡ given.Note (number_of_action facts.now.stages action) reason) }
{
    let number = action_number(action, facts.stages);
    if least <= number && facts.is_lead(key.mask, action.bend) {
        Some((
            PlanItem::Note {
                action: number,
                reason,
            },
            Section::Notes(*key, number + 1),
        ))
    } else {
        None
    }
}

/// A note, where it may stand: behind its row or another note of the row.
#[tactic(auto, unfolding(crate::specs::PlanReading::give, crate::specs::PlanReading::plan_words_in), using(crate::proofs::PlanLineRead::note_among))]
fn take_note(facts: &JobFacts, section: &Section, text: &[u8]) -> Option<(PlanItem, Section)>
    requires bends { facts.now.bends ≤ 12 }
    requires stages { facts.now.stages ≤ 6 }
    ensures { (job : JobData) → KeepsFacts facts.now job → Reads placed result
        (give_read facts.now.format job section.now
        (plan_words_in facts.now.bends facts.now.stages kinds.Note text.now)) }
{
    let (action, reason) = note(text, facts.bends, facts.stages)?;
    match section {
        Section::Notes(key, least) => noted(facts, key, *least, action, reason),
        _ => None,
    }
}

/// The kind of a line by its keyword.
pub fn plan_line_of(keyword: &[u8]) -> Option<PlanLine>
    ensures { result ≡ plan_line_of keyword.now }
{
    match keyword {
        b"claim" => Some(PlanLine::Claim),
        b"step" => Some(PlanLine::Step),
        b"row" => Some(PlanLine::Row),
        b"x" => Some(PlanLine::Note),
        _ => None,
    }
}

/// What the words of a line of a kind give, and where the next line stands.
fn take_plan_words(
    facts: &JobFacts,
    section: &Section,
    kind: PlanLine,
    text: &[u8],
) -> Option<(PlanItem, Section)>
    requires bends { facts.now.bends ≤ 12 }
    requires stages { facts.now.stages ≤ 6 }
    ensures { (job : JobData) → KeepsFacts facts.now job → Reads placed result
        (give_read facts.now.format job section.now
        (plan_words_in facts.now.bends facts.now.stages kind text.now)) }
{
    match kind {
        PlanLine::Claim => take_claim(facts, section, text),
        PlanLine::Step => take_step(facts, section, text),
        PlanLine::Row => take_row(facts, section, text),
        PlanLine::Note => take_note(facts, section, text),
    }
}

/// What a line gives, and where the next one stands.
#[tactic(auto, unfolding(crate::specs::PlanReading::take_plan_line, crate::specs::PlanReading::plan_line_in))]
pub fn take_plan_line(
    facts: &JobFacts,
    section: &Section,
    line: &[u8],
) -> Option<(PlanItem, Section)>
    requires bends { facts.now.bends ≤ 12 }
    requires stages { facts.now.stages ≤ 6 }
    ensures { (job : JobData) → KeepsFacts facts.now job
        → Reads placed result
        (take_plan_line facts.now.format job section.now (keyword_in line.now)
        (behind_keyword line.now)) }
{
    let (keyword, text) = split_word(line);
    let kind = plan_line_of(keyword)?;
    take_plan_words(facts, section, kind, text)
}

/// Whether the line ends a certificate or a table file.
pub fn is_end_line(line: &[u8]) -> bool
    ensures { result ≡ is_end_line line.now }
{
    matches!(line, b"end")
}

/// Whether the line is one of a claim.
fn is_claim_line(line: &[u8]) -> bool
    ensures { result ≡ is_claim_line line.now }
{
    let (keyword, text) = split_word(line);
    matches!(keyword, b"claim") && claim(text).is_some()
}

/// Whether the line is one of a row of a job of so many bends and stages.
fn is_row_line(bends: u8, stages: u8, line: &[u8]) -> bool
    requires { bends ≤ 12 }
    ensures { result ≡ is_row_line bends stages line.now }
{
    let (keyword, text) = split_word(line);
    matches!(keyword, b"row") && row(text, bends, stages).is_some()
}

/// Whether the line may be the first behind a job of so many bends and stages.
pub fn may_follow_job(format: Format, bends: u8, stages: u8, line: &[u8]) -> bool
    requires { bends ≤ 12 }
    ensures { result ≡ may_follow_job format bends stages line.now }
{
    match format {
        Format::Table => is_end_line(line) || is_row_line(bends, stages, line),
        _ => is_claim_line(line),
    }
}

/// Where the first line behind the job stands.
pub fn first_section(format: Format) -> Section
    ensures { result ≡ first_section format }
{
    match format {
        Format::Table => Section::Rows,
        _ => Section::Claim,
    }
}
