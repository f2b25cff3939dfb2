//! The lines of notes that are known by their actions, and those of the last row at each stage as one
//! text. Rows of a set have mostly the notes of the row before, or of the last one at their stage, and
//! notes that are known needn't be read one by one.
ghost use Rattle.std.specs.Prelude.{◌≡◌, ◌≢◌, ◌↔◌, ℕ, ◌<◌, ◌≤◌, All, List, length, None, IsTrue, IfSome, bytes_eq, take, codes, ◌⊎◌};
ghost use Rattle.brake_base.specs.declared.mask.Mask.{Mask};
ghost use Rattle.brake_base.specs.declared.reason.Reason.{Reason};
ghost use Rattle.brake_base.specs.Actions.{number_of_action};
ghost use Rattle.job_setup.specs.Setup.{JobData};
ghost use Rattle.plan_lines.specs.declared.job_facts.JobFacts.{JobFacts};
ghost use Rattle.stage_lanes.specs.Codes.{code_of, IsCode, IsCoded};
ghost use Rattle.plan_lines.specs.Facts.{HasFew, KeepsFacts};
ghost use Rattle.plan_lines.specs.NoteLines.{IsKnown};
ghost use Rattle.cert_lines.specs.LineReading.{IsCut};
ghost use Rattle.plan_lines.specs.NoteLines.{KnownReasons, reason_by, KnowsNoMore, KnowsAtMost, IsRun, IsBlock, IsTaken};

use crate::job_facts::{JobFacts, SetLeads};
use crate::note::KnownNote;
use crate::note_run::{
    NoteBlock, NoteRun, behind_note, held_at, is_free, likely_number, take_lines,
};
use brake_base::{Mask, Reason, action_number};
use stage_lanes::{ActionSet, reason_of};
use std::marker::Model;

/// Notes of which the lines are known, one for each action at most, from the texts of one kind of
/// job. They are seen as the number of stages and the reasons by the numbers of the actions. The
/// lines that were read stay when the notes are forgotten, so that none is read word by word twice.
#[derive(Drop)]
pub struct NoteLines<'a> {
    facts: JobFacts,
    notes: [Option<KnownNote<'a>>; 144],
    read: [Option<KnownNote<'a>>; 144],
    leads: SetLeads,
    /// The notes of the last row at each stage that hadn't those of the row before it, and the stage
    /// at which those of the last row stand.
    blocks: [NoteBlock<'a>; 8],
    last: u8,
}

impl<'a> Model for NoteLines<'a> {
    ghost use Rattle.plan_lines.specs.NoteLines.{KnownReasons, known_reasons, AreNoteLines};

    ghost Value = { KnownReasons };

    ghost view = { λ t. known_reasons t.facts.stages t.notes };

    ghost invariant = { λ t. AreNoteLines t.facts t.notes t.read t.leads t.blocks };
}

/// Whether the job has so many bends and stages.
fn is_of(bends: u8, stages: u8, facts: &JobFacts) -> bool
    ensures { IsTrue result ↔ ((bends ≡ facts.now.bends) × (stages ≡ facts.now.stages)) }
{
    bends == facts.bends && stages == facts.stages
}

/// Whether the facts agree but for the format.
fn are_same(facts: &JobFacts, other: &JobFacts) -> bool
    ensures kept { IsTrue result → (job : JobData) → KeepsFacts facts.now job
        → KeepsFacts other.now job }
    ensures same { facts.now.bends ≡ other.now.bends → facts.now.stages ≡ other.now.stages
        → facts.now.earlier ≡ other.now.earlier → IsTrue result }
{
    if !is_of(facts.bends, facts.stages, other) {
        return false;
    }
    facts.earlier == other.earlier
}

/// The block of no note.
fn no_block<'a>() -> NoteBlock<'a>
    ensures { (facts : JobFacts) (known : KnownReasons) → IsBlock facts known result }
{
    NoteBlock {
        leads: Mask::empty(),
        notes: ActionSet::empty(),
        count: 0,
        least: 0,
        text: b"",
    }
}

/// The run of no note.
fn no_run<'a>(least: u8, text: &'a [u8]) -> NoteRun<'a>
    ensures { (facts : JobFacts) (known : KnownReasons) (leads : Mask)
        → IsRun facts known leads least text.now result }
{
    NoteRun {
        notes: ActionSet::empty(),
        count: 0,
        least,
        rest: text,
    }
}

/// The notes of the block, where the text behind a row goes on with them, or else none.
fn run_of<'a>(block: &NoteBlock, leads: Mask, least: u8, text: &'a [u8]) -> NoteRun<'a>
    ensures run { (facts : JobFacts) (known : KnownReasons) → IsBlock facts known block.now
        → IsRun facts known leads least text.now result }
{
    if least != 0 || leads != block.leads {
        return no_run(least, text);
    }
    match text.strip_prefix(block.text) {
        Some(rest) => NoteRun {
            notes: block.notes,
            count: block.count,
            least: block.least,
            rest,
        },
        None => no_run(least, text),
    }
}

/// The notes of a stage's block, where the text behind a row goes on with them, or else none.
fn run_at<'a>(
    blocks: &[NoteBlock; 8],
    stage: u8,
    leads: Mask,
    least: u8,
    text: &'a [u8],
) -> NoteRun<'a>
    ensures run { (facts : JobFacts) (known : KnownReasons) → All (IsBlock facts known) blocks.now
        → IsRun facts known leads least text.now result }
{
    run_of(&blocks[usize::from(stage % 8)], leads, least, text)
}

/// That of two runs which has more notes.
fn longer<'a>(run: &NoteRun<'a>, other: &NoteRun<'a>) -> NoteRun<'a>
    ensures run { (facts : JobFacts) (known : KnownReasons) (leads : Mask) (least : ℕ)
        (text : List ℕ) → IsRun facts known leads least text run.now
        → IsRun facts known leads least text other.now
        → IsRun facts known leads least text result }
    ensures one { (result ≡ run.now) ⊎ (result ≡ other.now) }
    ensures most { (run.now.count ≤ result.count) × (other.now.count ≤ result.count) }
{
    if run.count < other.count {
        *other
    } else {
        *run
    }
}

/// The block of the notes that were taken behind a row.
fn block_of<'a>(leads: Mask, text: &'a [u8], run: &NoteRun) -> NoteBlock<'a>
    requires { length run.now.rest.now ≤ length text.now }
    ensures { (facts : JobFacts) (known : KnownReasons)
        → IsRun facts known leads 0 text.now run.now → IsBlock facts known result }
{
    NoteBlock {
        leads,
        notes: run.notes,
        count: run.count,
        least: run.least,
        text: &text[..text.len() - run.rest.len()],
    }
}

impl<'a> NoteLines<'a> {
    /// No note is known, on a machine of so many stages.
    pub fn new(stages: u8) -> NoteLines<'a>
        requires { stages ≤ 6 }
        ensures stages { result.stages ≡ stages }
        ensures none { (number : ℕ) → reason_by result number ≡ None }
    {
        NoteLines::of(JobFacts {
            stages,
            ..JobFacts::none()
        })
    }

    /// No note is known, of a job of which this is kept.
    fn of(facts: JobFacts) -> NoteLines<'a>
        requires { HasFew facts }
        ensures stages { result.stages ≡ facts.stages }
        ensures none { (number : ℕ) → reason_by result number ≡ None }
    {
        NoteLines {
            facts,
            notes: [None; 144],
            read: [None; 144],
            leads: SetLeads::none(),
            blocks: [no_block(); 8],
            last: 0,
        }
    }

    /// No note is known from now on.
    pub fn forget(&mut self)
        ensures stages { self.new.stages ≡ self.old.stages }
        ensures none { (number : ℕ) → reason_by self.new number ≡ None }
    {
        self.notes = [None; 144];
        self.blocks = [no_block(); 8];
    }

    /// Turns to texts of a job of which this is kept, and forgets all notes where the job has another
    /// number of bends or stages.
    fn turn_to(&mut self, facts: &JobFacts)
        requires few { HasFew facts.now }
        requires stages { facts.now.stages ≡ self.old.stages }
        ensures { KnowsNoMore self.old self.new }
    {
        if !is_of(facts.bends, facts.stages, &self.facts) {
            *self = NoteLines::of(*facts);
        }
    }

    /// Keeps a note of a job of so many bends and stages, where none is known of its action. A second
    /// reason of an action isn't worth it: in a text that alternates between two, each row would
    /// forget the notes of the row before.
    fn hold(&mut self, facts: &JobFacts, note: &KnownNote<'a>)
        requires few { HasFew facts.now }
        requires known { IsKnown facts.now.bends facts.now.stages note.now }
        ensures { KnowsAtMost self.old (number_of_action facts.now.stages note.now.action)
            note.now.reason self.new }
    {
        if is_of(facts.bends, facts.stages, &self.facts) {
            let number = action_number(note.action, facts.stages);
            if is_free(&self.notes, number) {
                let index = usize::from(number);
                self.notes[index] = Some(*note);
                self.read[index] = Some(*note);
            }
        }
    }

    /// Knows the note of the action of a number again, where none is known of it, its line was read
    /// before and its reason has this code.
    pub fn recall(&mut self, number: u8, code: u16)
        requires number { number < 144 }
        requires code { IsCode code }
        ensures some { (reason : Reason) → IsCoded reason → code_of reason ≡ code
            → KnowsAtMost self.old number reason self.new }
        ensures none { code ≡ 65535 → KnowsNoMore self.old self.new }
    {
        if !is_free(&self.notes, number) {
            return;
        }
        if let Some(note) = held_at(&self.read, number) {
            if has_code(note.reason, code) {
                let own = self.facts;
                self.hold(&own, &note);
            }
        }
    }

    /// Keeps a note of a job, where none is known of its action.
    #[tactic(auto, using(crate::proofs::NoteRuns::both_known))]
    pub fn keep(&mut self, facts: &JobFacts, note: &KnownNote<'a>)
        requires few { HasFew facts.now }
        requires known { IsKnown facts.now.bends facts.now.stages note.now }
        ensures { KnowsAtMost self.old (number_of_action facts.now.stages note.now.action)
            note.now.reason self.new }
    {
        if facts.stages == self.facts.stages {
            self.turn_to(facts);
            self.hold(facts, note);
        }
    }

    /// The note whose line stands at the front of a text of a job, and the text behind the line, where
    /// such a line was read before.
    pub fn read_before<'b>(
        &self,
        facts: &JobFacts,
        text: &'b [u8],
    ) -> Option<(KnownNote<'a>, &'b [u8])>
        ensures known { IfSome result (λ x. IsKnown facts.now.bends facts.now.stages x.0) }
        ensures cut { IfSome result (λ x. IsCut text.now x.0.line.now x.1.now) }
    {
        if !is_of(facts.bends, facts.stages, &self.facts) {
            return None;
        }
        let number = likely_number(text, self.facts.stages)?;
        let note = held_at(&self.read, number)?;
        let rest = behind_note(text, &note)?;
        Some((note, rest))
    }

    /// Takes the known notes with whose lines the text goes on behind a row at this stage, where these
    /// bends are folded and a note's action has at least this number.
    pub fn take(
        &mut self,
        facts: &JobFacts,
        folded: Mask,
        stage: u8,
        least: u8,
        text: &'a [u8],
    ) -> NoteRun<'a>
        requires { HasFew facts.now }
        ensures same { self.new ≡ self.old }
        ensures taken { IsTaken facts.now self.old folded least text.now result }
    {
        if !are_same(facts, &self.facts) {
            return no_run(least, text);
        }
        let own = self.facts;
        let turned = self.leads.turned_to(&own, folded);
        let leads = turned.leads;
        self.leads = turned;
        let last = run_at(&self.blocks, self.last, leads, least, text);
        if !begins_with_note(last.rest) {
            return last;
        }
        let other = run_at(&self.blocks, stage, leads, least, text);
        let mut run = longer(&last, &other);
        take_lines(&self.notes, &own, leads, &mut run);
        if least == 0 {
            self.blocks[usize::from(stage % 8)] = block_of(leads, text, &run);
            self.last = stage;
        }
        run
    }
}

/// Whether a reason has this code.
fn has_code(reason: Reason, code: u16) -> bool
    requires { IsCode code }
    ensures some { IsTrue result → (other : Reason) → IsCoded other → code_of other ≡ code
        → reason ≡ other }
    ensures none { IsTrue result → code ≢ 65535 }
    ensures all { IsCoded reason → code_of reason ≡ code → IsTrue result }
{
    match reason_of(code) {
        Some(other) => reason == other,
        None => false,
    }
}

/// Whether the text begins as the line of a note does.
pub fn begins_with_note(text: &[u8]) -> bool
    ensures { result ≡ bytes_eq (take 1 text.now) (codes "x") }
{
    matches!(text, [b'x', ..])
}
