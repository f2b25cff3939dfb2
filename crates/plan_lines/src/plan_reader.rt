//! A reader of the lines behind the job.
ghost use Rattle.std.specs.Prelude.{◌≡◌, ◌+◌, ◌<◌, ◌≤◌, ◌++◌, ◌∷◌, [], ℕ, List, Result, Err, IfOk, IfSome, IsNone, IsSome, IsTrue, IsFalse, length, true};
ghost use Rattle.plan_lines.specs.declared.item.Item.{Item};
ghost use Rattle.plan_lines.specs.declared.item.CertFault.{CertFault};
ghost use Rattle.stage_lanes.specs.ActionSets.{places_of};
ghost use Rattle.plan_lines.specs.Facts.{HasFew};
ghost use Rattle.plan_lines.specs.Items.{items};
ghost use Rattle.plan_lines.specs.PlanItem.{plan_answer, job_answer};
ghost use Rattle.cert_lines.specs.LineReading.{IsBehind};
ghost use Rattle.plan_lines.specs.Reading.{IsNextLine, LeavesAt, GivesNext, HoldsBefore, IsUntold, MayBeBehind};
ghost use Rattle.plan_lines.specs.NoteLines.{notes_told, AreKnownAll, LearnsFrom, GivesAll};

use crate::item::{CertFault, PlanItem};
use crate::job_answers::first_answer;
use crate::line_place::{LinePlace, next_number, number_behind};
use crate::note_lines::{NoteLines, begins_with_note};
use crate::plan_answers::{answer_behind_job, next_noted, next_row};
use crate::section::Section;
use cert_lines::TextKind;
use job_setup::Job;
use stage_lanes::ActionSet;

/// A reader of a text or of a piece of one: where it stands, and what is still to be read of the
/// piece. Its clauses say what it answers for each text that goes on from the piece: `behind` are the
/// bytes behind it. It takes no memory.
#[derive(Drop)]
pub struct PlanReader<'a> {
    pub place: LinePlace,
    pub rest: &'a [u8],
}

/// Refuses the text, so that no answer is left behind the fault.
pub fn refuse(reader: &mut PlanReader, fault: CertFault) -> CertFault
    ensures fault { result ≡ fault }
    ensures given { (text : List ℕ)
        → GivesNext (Err fault ∷ []) (Err result) reader.new.place text }
    ensures rest { reader.new.rest.now ≡ reader.old.rest.now }
    ensures facts { reader.new.place.facts ≡ reader.old.place.facts }
{
    reader.place.section = Section::Over;
    fault
}

/// Goes on behind the first line of what is still to be read, to where the next line stands.
pub fn pass_line<'a>(reader: &mut PlanReader<'a>, section: Section, rest: &'a [u8])
    requires few { HasFew reader.old.place.facts }
    ensures given { (answer : Result Item CertFault) (behind : List ℕ)
        (answers : List (Result Item CertFault))
        → IsNextLine reader.old.place reader.old.rest.now (answer, section) rest.now
        → LeavesAt reader.old.place (reader.old.rest.now ++ behind) answers → 0 < length answers
        → HoldsBefore answer behind
        → GivesNext answers answer reader.new.place (reader.new.rest.now ++ behind) }
    ensures few { HasFew reader.new.place.facts }
    ensures rest { reader.new.rest.now ≡ rest.now }
{
    reader.rest = rest;
    reader.place.number = next_number(reader.place.number);
    reader.place.section = section;
}

/// Whether a piece tells the answer: the end of the text, or that it ends within a line, is told by
/// the last piece alone.
fn is_told(answer: &Result<PlanItem, CertFault>, is_last: bool) -> bool
    ensures told { IsTrue result → (behind : List ℕ) → MayBeBehind is_last behind
        → HoldsBefore (plan_answer answer.now) behind }
    ensures untold { IsFalse result → IsUntold (plan_answer answer.now) }
    ensures last { is_last ≡ true → result ≡ true }
{
    match answer {
        Ok(PlanItem::End) | Err(CertFault::Unended) => is_last,
        _ => true,
    }
}

impl<'a> PlanReader<'a> {
    /// A reader of a text that begins with this piece, of which nothing is read.
    pub fn new(piece: &'a [u8]) -> PlanReader<'a>
        ensures rest { result.rest.now ≡ piece.now }
        ensures few { HasFew result.place.facts }
    {
        PlanReader::at(LinePlace::none(), piece)
    }

    /// A reader from a place on, before which this piece of the text stands.
    pub fn at(place: LinePlace, piece: &'a [u8]) -> PlanReader<'a>
        ensures place { result.place ≡ place }
        ensures rest { result.rest.now ≡ piece.now }
    {
        PlanReader { place, rest: piece }
    }

    /// Where the reader stands.
    pub fn place(&self) -> LinePlace
        ensures { result ≡ self.now.place }
    {
        self.place
    }

    /// What is still to be read of the piece.
    pub fn rest(&self) -> &'a [u8]
        ensures { result.now ≡ self.now.rest.now }
    {
        self.rest
    }

    /// The first answer of a text of this kind: the job, or the refusal. `Unended` says that the piece
    /// ends before the job's lines do.
    pub fn read_job(&mut self, kind: TextKind) -> Result<Job, CertFault>
        requires few { HasFew self.old.place.facts }
        ensures given { (behind : List ℕ) → HoldsBefore (job_answer result) behind
            → GivesNext (items kind (self.old.rest.now ++ behind)) (job_answer result)
            self.new.place (self.new.rest.now ++ behind) }
        ensures few { HasFew self.new.place.facts }
        ensures rest { IsBehind self.old.rest.now self.new.rest.now }
    {
        first_answer(kind, self)
    }

    /// The next answer behind the job: what the line gives, or the refusal. `None` where a piece that
    /// isn't the last doesn't tell it; then nothing is read. Of a note the line may be kept, so that
    /// it is known from now on; other notes may be forgotten.
    pub fn next_kept(
        &mut self,
        known: &mut NoteLines<'a>,
        is_last: bool,
    ) -> Option<Result<PlanItem, CertFault>>
        requires few { HasFew self.old.place.facts }
        ensures given { IfSome result (λ answer. (behind : List ℕ)
            (answers : List (Result Item CertFault)) → MayBeBehind is_last behind
            → LeavesAt self.old.place (self.old.rest.now ++ behind) answers → 0 < length answers
            → GivesNext answers (plan_answer answer) self.new.place (self.new.rest.now ++ behind)) }
        ensures known { IfSome result (λ answer.
            LearnsFrom known.old (plan_answer answer) known.new) }
        ensures last { is_last ≡ true → IsSome result }
        ensures none { IsNone result → (answer : Result Item CertFault)
            (more : List (Result Item CertFault))
            → LeavesAt self.old.place self.old.rest.now (answer ∷ more) → IsUntold answer }
        ensures place { IsNone result → self.new.place ≡ self.old.place }
        ensures unread { IsNone result → self.new.rest.now ≡ self.old.rest.now }
        ensures few { HasFew self.new.place.facts }
        ensures rest { IsBehind self.old.rest.now self.new.rest.now }
        ensures shorter { IfSome result (λ answer. IfOk answer
            (λ _. length self.new.rest.now < length self.old.rest.now)) }
    {
        if let Some((row, rest)) = next_row(&self.place, self.rest) {
            pass_line(self, Section::Notes(row.key, 0), rest);
            return Some(Ok(PlanItem::Row(row)));
        }
        if let Some((note, item, section, rest)) = next_noted(known, &self.place, self.rest) {
            known.keep(&self.place.facts, &note);
            pass_line(self, section, rest);
            return Some(Ok(item));
        }
        let place = self.place;
        let text = self.rest;
        let answer = answer_behind_job(self);
        if is_told(&answer, is_last) {
            Some(answer)
        } else {
            self.place = place;
            self.rest = text;
            None
        }
    }

    /// Takes known notes that are the next answers behind the job, as many at once as the piece goes
    /// on with in the order of their actions; none where it goes on with anything else. It tells
    /// their actions: the next answers are the notes of these, in the order of their numbers.
    pub fn take_known(&mut self, known: &mut NoteLines<'a>) -> ActionSet
        requires few { HasFew self.old.place.facts }
        ensures told { (behind : List ℕ) (answers : List (Result Item CertFault))
            → LeavesAt self.old.place (self.old.rest.now ++ behind) answers
            → GivesAll answers (notes_told known.old result) self.new.place
            (self.new.rest.now ++ behind) }
        ensures few { HasFew self.new.place.facts }
        ensures rest { IsBehind self.old.rest.now self.new.rest.now }
        ensures shorter { length (places_of result) + length self.new.rest.now
            ≤ length self.old.rest.now }
        ensures reasons { AreKnownAll known.old result }
        ensures known { known.new ≡ known.old }
    {
        match self.place.section {
            Section::Notes(key, least) if begins_with_note(self.rest) => {
                let run = known.take(&self.place.facts, key.mask, key.stage, least, self.rest);
                self.rest = run.rest;
                self.place.number = number_behind(self.place.number, run.count);
                self.place.section = Section::Notes(key, run.least);
                run.notes
            }
            _ => ActionSet::empty(),
        }
    }
}
