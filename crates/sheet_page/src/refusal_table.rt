//! The table of the refused strokes of a state.
ghost use Rattle.std.specs.Prelude.{◌≡◌, ℕ, ◌≤◌, ◌<◌, ◌*◌, ◌++◌, length, map, take, flat_map, slice_index_or, IfOk, OnOk};
ghost use Rattle.brake_base.specs.Masks.{numbers_to};
ghost use Rattle.brake_base.specs.declared.stroke.Back.{Back};
ghost use Rattle.brake_base.specs.declared.stroke.Back.TheVariants.{Parent, Child};
ghost use Rattle.job_setup.specs.Setup.{bend_count, stage_count};
ghost use Rattle.handling_cost.specs.StepCost.{IsActionAt};
ghost use Rattle.plan_lines.specs.declared.note.Note.{Note};
ghost use Rattle.cert_lines.specs.Lines.{action_at};
ghost use Rattle.sheet_page.specs.Kept.{key_at, IsNoteAt, AreNotesAt};
ghost use Rattle.sheet_page.specs.Left.{action_of_note};
ghost use Rattle.sheet_page.specs.Refused.{note_words, is_one_row, is_first, is_refused_so, row_line, refusal_row, row_begun, refusal_rows, left_row, left_rows, AreRefusals};
ghost use Rattle.sheet_page.specs.Ways.{has_mark, marked, ways_words};

use crate::forms::REFUSAL_ROW;
use crate::holes::text;
use crate::left::{left_of, ways_left};
use crate::ways::Ways;
use brake_base::{Action, Key, Mask, Turn, action_of};
use handling_cost::pose_before;
use job_setup::Job;
use plan_cert::Note;
use sheet_words::{name_of, put_reason};
use std::alloc::{AllocError, Global};
use svg_text::{Hole, put_line};

/// The refused strokes of a state: its folded bends, its notes, and the words of each.
#[derive(Drop)]
pub struct Refusals<'a> {
    pub job: &'a Job,
    pub mask: Mask,
    pub notes: &'a [Note],
    pub(crate) words: Vec<Vec<u8>>,
}

/// A key at which these bends are folded. How the part was held before tells nothing of a refusal.
pub fn key_of(mask: Mask) -> Key
    ensures { result ≡ key_at mask }
{
    Key {
        mask,
        attitude: Turn::from_number(0),
        stage: 0,
    }
}

/// The action of a number at the job's stages.
pub fn action_in(job: &Job, number: u8) -> Action
    requires { number < 24 * stage_count job.now }
    ensures value { result ≡ action_at (stage_count job.now) number }
    ensures first { 1 ≤ result.bend }
    ensures last { result.bend ≤ 12 }
    ensures few { result.stage < 6 }
{
    action_of(number, job.stages())
}

/// The words of a note.
fn words_of(alloc: Global, job: &Job, mask: Mask, note: &Note) -> Result<Vec<u8>, AllocError>
    requires { IsNoteAt job.now mask note.now }
    ensures { IfOk result (λ words. words.items ≡ note_words job.now mask note.now) }
{
    let action = action_in(job, note.action);
    let pose = pose_before(job, &key_of(mask), action);
    let mut words = Vec::new(alloc);
    put_reason(&mut words, job, action, &pose, note.reason)?;
    Ok(words)
}

/// The words of each note.
fn all_words(
    alloc: Global,
    job: &Job,
    mask: Mask,
    notes: &[Note],
) -> Result<Vec<Vec<u8>>, AllocError>
    requires { AreNotesAt job.now mask notes.now }
    ensures { IfOk result (λ all. map (λ words. words.items) all.items
        ≡ map (note_words job.now mask) notes.now) }
{
    let mut words = Vec::new(alloc);
    for note in notes {
        words.push(words_of(alloc, job, mask, note)?)?;
    }
    Ok(words)
}

impl<'a> Refusals<'a> {
    /// The refused strokes of a state.
    pub fn new(
        alloc: Global,
        job: &'a Job,
        mask: Mask,
        notes: &'a [Note],
    ) -> Result<Self, AllocError>
        requires { AreNotesAt job.now mask notes.now }
        ensures good { IfOk result AreRefusals }
        ensures of_job { IfOk result (λ refusals. refusals.job.now ≡ job.now) }
        ensures of_mask { IfOk result (λ refusals. refusals.mask ≡ mask) }
        ensures of_notes { IfOk result (λ refusals. refusals.notes.now ≡ notes.now) }
    {
        let words = all_words(alloc, job, mask, notes)?;
        Ok(Refusals {
            job,
            mask,
            notes,
            words,
        })
    }

    /// A note, by its place.
    pub fn note(&self, at: usize) -> Note
        requires { at < length self.now.notes.now }
        ensures { (d : Note) → result ≡ slice_index_or self.now.notes.now at d }
    {
        self.notes[at]
    }

    /// The action of a note, by its place.
    pub fn action(&self, at: usize) -> Action
        requires refusals { AreRefusals self.now }
        requires at { at < length self.now.notes.now }
        ensures value { (d : Note) → result
            ≡ action_of_note self.now.job.now (slice_index_or self.now.notes.now at d) }
        ensures tried { IsActionAt self.now.job.now (key_at self.now.mask) result }
        ensures few { result.stage < 6 }
    {
        action_in(self.job, self.notes[at].action)
    }

    /// The words of a note, by its place.
    fn words(&self, at: usize) -> &[u8]
        requires refusals { AreRefusals self.now }
        requires at { at < length self.now.notes.now }
        ensures { (d : Note) → result.now
            ≡ note_words self.now.job.now self.now.mask (slice_index_or self.now.notes.now at d) }
    {
        let words = self.words.as_slice();
        words[at].as_slice()
    }

    /// Whether two notes stand in one row: they are of one bend and have the same words.
    fn is_one_row(&self, a: usize, b: usize) -> bool
        requires refusals { AreRefusals self.now }
        requires a { a < length self.now.notes.now }
        requires b { b < length self.now.notes.now }
        ensures { (d : Note) → result ≡ is_one_row self.now.job.now self.now.mask
            (slice_index_or self.now.notes.now a d) (slice_index_or self.now.notes.now b d) }
    {
        self.action(a).bend == self.action(b).bend && self.words(a) == self.words(b)
    }

    /// Whether a note is the first of its row.
    pub fn is_first_of_row(&self, at: usize) -> bool
        requires refusals { AreRefusals self.now }
        requires at { at < length self.now.notes.now }
        ensures { (d : Note) → result ≡ is_first (is_one_row self.now.job.now self.now.mask)
            (take at self.now.notes.now) (slice_index_or self.now.notes.now at d) }
    {
        for before in 0..at {
            if self.is_one_row(before, at) {
                return false;
            }
        }
        true
    }

    /// The ways of the row of a note.
    fn ways_of_row(&self, at: usize) -> Ways
        requires refusals { AreRefusals self.now }
        requires at { at < length self.now.notes.now }
        ensures { (d : Note) (back : Back) (station : ℕ) → has_mark result back station
            ≡ is_refused_so self.now.job.now self.now.mask self.now.notes.now
            (slice_index_or self.now.notes.now at d) back station }
    {
        let mut ways = Ways::none();
        for i in 0..self.notes.len() {
            if self.is_one_row(i, at) {
                ways.add(self.action(i));
            }
        }
        ways
    }

    /// The row of a note.
    #[tactic(auto, unfolding(crate::specs::Refused::refusal_row))]
    fn put_row_of(&self, out: &mut Vec<u8>, at: usize) -> Result<(), AllocError>
        requires refusals { AreRefusals self.now }
        requires at { at < length self.now.notes.now }
        ensures { OnOk result ((d : Note) → out.new.items
            ≡ out.old.items ++ refusal_row self.now.job.now self.now.mask self.now.notes.now
            (slice_index_or self.now.notes.now at d)) }
    {
        let ways = self.ways_of_row(at);
        put_row(out, self.job, self.action(at).bend, &ways, self.words(at))
    }

    /// The row that a note begins, where it is the first of one.
    fn put_row_at(&self, out: &mut Vec<u8>, at: usize) -> Result<(), AllocError>
        requires refusals { AreRefusals self.now }
        requires at { at < length self.now.notes.now }
        ensures { OnOk result ((d : Note) → out.new.items
            ≡ out.old.items ++ row_begun self.now.job.now self.now.mask self.now.notes.now
            (take at self.now.notes.now) (slice_index_or self.now.notes.now at d)) }
    {
        if !self.is_first_of_row(at) {
            return Ok(());
        }
        self.put_row_of(out, at)
    }

    /// The rows, those of one bend with the same words in one.
    pub fn put_rows(&self, out: &mut Vec<u8>) -> Result<(), AllocError>
        requires { AreRefusals self.now }
        ensures { OnOk result (out.new.items
            ≡ out.old.items ++ refusal_rows self.now.job.now self.now.mask self.now.notes.now) }
    {
        for i in 0..self.notes.len() {
            self.put_row_at(out, i)?;
        }
        Ok(())
    }

    /// The row of a bend, where strokes of it are left: no order goes on from there to the end.
    #[tactic(auto, using(sheet_paper::proofs::Texts::pieces), unfolding(crate::specs::Refused::left_row))]
    fn put_left_row(&self, out: &mut Vec<u8>, bend: u8) -> Result<(), AllocError>
        requires some { 0 < bend }
        requires bend { bend < length self.now.job.now.part.faces }
        requires few { bend ≤ 12 }
        ensures { OnOk result (out.new.items
            ≡ out.old.items ++ left_row self.now.job.now self.now.mask self.now.notes.now bend) }
    {
        if left_of(self.job, self.mask, self.notes, bend) == 0 {
            return Ok(());
        }
        let ways = ways_left(self.job, self.notes, bend);
        put_row(out, self.job, bend, &ways, NO_ORDER_FROM_THERE)
    }

    /// A row for each bend of which strokes are left.
    pub fn put_left_rows(&self, out: &mut Vec<u8>) -> Result<(), AllocError>
        ensures { OnOk result (out.new.items
            ≡ out.old.items ++ left_rows self.now.job.now self.now.mask self.now.notes.now) }
    {
        for bend in 1..self.job.bends() + 1 {
            self.put_left_row(out, bend)?;
        }
        Ok(())
    }
}

const NO_ORDER_FROM_THERE: &[u8] = b"from there no order reaches the end";

/// The line of a row: a bend, its flange's name, how it is tried, and the answer.
#[tactic(auto, using(sheet_paper::proofs::Texts::pieces), unfolding(crate::specs::Refused::row_line))]
fn put_cells<'a>(
    out: &mut Vec<u8>,
    job: &'a Job,
    bend: u8,
    how: &'a [u8],
    answer: &'a [u8],
) -> Result<(), AllocError>
    ensures { OnOk result (out.new.items
        ≡ out.old.items ++ row_line job.now bend how.now answer.now) }
{
    let holes = [
        Hole::Number(i64::from(bend)),
        text(name_of(job, bend)),
        text(how),
        text(answer),
    ];
    put_line(out, REFUSAL_ROW, &holes)
}

/// A row: a bend, how it is tried, and the answer.
fn put_row(
    out: &mut Vec<u8>,
    job: &Job,
    bend: u8,
    ways: &Ways,
    answer: &[u8],
) -> Result<(), AllocError>
    ensures { OnOk result (out.new.items ≡ out.old.items ++ row_line job.now bend
        (ways_words (marked ways.now Parent) (marked ways.now Child) (stage_count job.now))
        answer.now) }
{
    let mut how = Vec::new(*out.allocator());
    ways.put_words(&mut how, usize::from(job.stages()))?;
    put_cells(out, job, bend, how.as_slice(), answer)
}
