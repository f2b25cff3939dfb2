//! What is kept of a certificate's rows where there is no plan.

ghost use Rattle.std.specs.Prelude.{◌≡◌, ℕ, ◌+◌, ◌*◌, ◌<◌, ◌≤◌, ◌^◌, ◌-◌, ◌==◌, ◌&&◌, ◌++◌, [], ◌∷◌, cond, ◌≢◌, None, List, All, AllPairs, length, take, count_by, slice_index_or};
ghost use Rattle.std.specs.List.{AllWithin};
ghost use Rattle.brake_base.specs.Masks.{bends_of};
ghost use Rattle.brake_base.specs.Reasons.{kind_of};
ghost use Rattle.plan_cert.specs.Cert.{cert_data};
ghost use Rattle.plan_lines.specs.declared.note.Note.{Note};
ghost use Rattle.plan_cert.specs.WellFormed.{IsNote, NoteIsBefore};
ghost use Rattle.job_setup.specs.Setup.{JobData, stage_count};
ghost use Rattle.sheet_page.specs.Kept.{HaveActions, StateData, state_data, IsStateOf, notes_of, is_mask_before, is_bend, is_kind, count_in, is_of, IsFlatState, AreDeadEnds, IsKept, HasFew, last_states, states_of};

use crate::left::strokes_left;
use crate::refusal_table::action_in;
use arrayvec::ArrayVec;
use brake_base::{Mask, Reason};
use job_setup::Job;
use plan_cert::{Cert, Note, RowHead};

/// A state of the part, by its folded bends, with the places of the notes of its first row: from
/// `begin` on, and none from `end` on. In a certificate that the search leaves the notes of a state's
/// rows don't differ, for why a stroke is refused depends neither on the attitude before nor on the
/// station before.
#[derive(Clone, Copy, Debug, Default, PartialEq, Eq)]
pub struct State {
    pub mask: Mask,
    pub begin: usize,
    pub end: usize,
}

impl State {
    /// Its notes, ascending by their actions.
    pub fn notes(self, cert: &Cert) -> &[Note]
        requires begins { self.begin ≤ self.end }
        requires ends { self.end ≤ length cert.now.notes.items }
        ensures { result.now ≡ notes_of cert.now.notes.items self }
    {
        &cert.notes.as_slice()[self.begin..self.end]
    }
}

/// How often each bend is refused for each kind of reasons: by bend, then by kind.
#[derive(Clone, Copy)]
pub struct Counts {
    pub(crate) all: [usize; 108],
}

/// The place of the count of a bend and a kind.
fn place_of(bend: u8, kind: u8) -> usize
    requires first { 1 ≤ bend }
    requires last { bend ≤ 12 }
    requires some { 1 ≤ kind }
    requires few { kind ≤ 9 }
    ensures value { result ≡ (bend - 1) * 9 + (kind - 1) }
    ensures within { result < 108 }
{
    usize::from(bend - 1) * 9 + usize::from(kind - 1)
}

/// Whether a number is that of a bend, or of a kind of reasons.
fn is_bend(number: u8) -> bool
    ensures { result ≡ is_bend number }
{
    number >= 1 && number <= 12
}

fn is_kind(number: u8) -> bool
    ensures { result ≡ is_kind number }
{
    number >= 1 && number <= 9
}

impl Counts {
    fn none() -> Counts
        ensures { (bend kind : ℕ) → count_in result bend kind ≡ 0 }
    {
        Counts { all: [0; 108] }
    }

    /// How often a bend is refused for a kind of reasons: never, where there is no such bend or
    /// kind.
    #[tactic(auto, unfolding(crate::specs::Kept::count_in))]
    pub fn of(&self, bend: u8, kind: u8) -> usize
        ensures { result ≡ count_in self.now bend kind }
    {
        if is_bend(bend) && is_kind(kind) {
            self.all[place_of(bend, kind)]
        } else {
            0
        }
    }

    /// Counts a refusal of a bend.
    #[tactic(auto, using(crate::proofs::KeptLemmas::kinds))]
    fn add(&mut self, bend: u8, reason: Reason)
        requires first { 1 ≤ bend }
        requires last { bend ≤ 12 }
        requires few { (b k : ℕ) → count_in self.old b k < 2 ^ 63 }
        ensures { (b k : ℕ) → count_in self.new b k
            ≡ count_in self.old b k + cond (bend == b && kind_of reason == k) 1 0 }
    {
        let place = place_of(bend, reason.kind());
        self.all[place] += 1;
    }

    /// Counts the refusal that a note tells.
    fn add_note(&mut self, job: &Job, note: &Note)
        requires action { note.now.action < 24 * stage_count job.now }
        requires few { (b k : ℕ) → count_in self.old b k < 2 ^ 63 }
        ensures { (b k : ℕ) → count_in self.new b k
            ≡ count_in self.old b k + cond (is_of job.now b k note.now) 1 0 }
    {
        self.add(action_in(job, note.action).bend, note.reason);
    }

    /// Counts the refusals of a state.
    fn add_all(&mut self, job: &Job, notes: &[Note])
        requires actions { HaveActions job.now notes.now }
        requires few { (b k : ℕ) → count_in self.old b k + length notes.now < 2 ^ 63 }
        ensures { (b k : ℕ) → count_in self.new b k
            ≡ count_in self.old b k + count_by (is_of job.now b k) notes.now }
    {
        for note in notes {
            self.add_note(job, note);
        }
    }
}

/// The states at which every stroke is refused: how many bends are folded at most there, at how many
/// of them that is so, and the first of these.
#[derive(Drop)]
pub struct DeadEnds {
    pub most: u8,
    pub count: usize,
    pub shown: ArrayVec<State, 4>,
}

impl DeadEnds {
    fn none() -> DeadEnds
        ensures dead_ends { (j : JobData) (all : List Note) → AreDeadEnds j all [] result }
        ensures count { result.count ≡ 0 }
    {
        DeadEnds {
            most: 0,
            count: 0,
            shown: ArrayVec::new(),
        }
    }

    /// A state, where no other one counts.
    fn only(state: State) -> DeadEnds
        ensures most { result.most ≡ length (bends_of state.mask) }
        ensures count { result.count ≡ 1 }
        ensures shown { result.shown.items ≡ state ∷ [] }
    {
        let mut shown = ArrayVec::new();
        shown.push(state);
        DeadEnds {
            most: state.mask.count(),
            count: 1,
            shown,
        }
    }

    /// Adds a state with as many folded bends.
    fn push(&mut self, state: State)
        requires { self.old.count < 2 ^ 63 }
        ensures most { self.new.most ≡ self.old.most }
        ensures count { self.new.count ≡ self.old.count + 1 }
        ensures shown { self.new.shown.items ≡ take 4 (self.old.shown.items ++ state ∷ []) }
    {
        self.count += 1;
        if self.shown.len() < 4 {
            self.shown.push(state);
        }
    }

    /// Adds a state, where no state with more bends is kept.
    fn add(&mut self, state: State)
        requires { self.old.count < 2 ^ 63 }
        ensures dead_ends { (j : JobData) (all : List Note) (states : List StateData)
            → IsStateOf j all state → AreDeadEnds j all states self.old
            → AreDeadEnds j all (states ++ state_data all state ∷ []) self.new }
        ensures count { self.new.count ≤ self.old.count + 1 }
    {
        let folded = state.mask.count();
        if folded > self.most {
            *self = DeadEnds::only(state);
        } else if folded == self.most {
            self.push(state);
        }
    }
}

/// What is kept: the state of the flat blank, how many states there are, how often each bend is
/// refused for each kind of reasons, and the states at which every stroke is refused.
#[derive(Drop)]
pub struct Kept {
    pub flat: Option<State>,
    pub states: usize,
    pub counts: Counts,
    pub dead_ends: DeadEnds,
}

/// The state of the flat blank: that which is found already, or this one, where it is.
fn flat_state(found: Option<State>, state: State) -> Option<State>
    ensures { (j : JobData) (all : List Note) (states : List StateData) → IsStateOf j all state
        → IsFlatState j all states found
        → IsFlatState j all (states ++ state_data all state ∷ []) result }
{
    match found {
        Some(flat) => Some(flat),
        None => {
            if state.mask.is_empty() {
                Some(state)
            } else {
                None
            }
        }
    }
}

impl Kept {
    fn nothing() -> Kept
        ensures kept { (j : JobData) (all : List Note) → IsKept j all [] result }
        ensures few { HasFew 0 0 result }
    {
        Kept {
            flat: None,
            states: 0,
            counts: Counts::none(),
            dead_ends: DeadEnds::none(),
        }
    }

    /// Adds a state with its notes, of so many states and notes before.
    fn add(&mut self, job: &Job, state: State, notes: &[Note])
        requires actions { HaveActions job.now notes.now }
        requires few { (states count : ℕ) × HasFew states count self.old × (states < 2 ^ 63)
            × (count + length notes.now < 2 ^ 63) }
        ensures kept { (all : List Note) (states : List StateData) → IsStateOf job.now all state
            → notes.now ≡ notes_of all state → IsKept job.now all states self.old
            → IsKept job.now all (states ++ state_data all state ∷ []) self.new }
        ensures few { (states count : ℕ) → HasFew states count self.old
            → HasFew (states + 1) (count + length notes.now) self.new }
    {
        self.states += 1;
        self.flat = flat_state(self.flat, state);
        self.counts.add_all(job, notes);
        if strokes_left(job, state.mask, notes) == 0 {
            self.dead_ends.add(state);
        }
    }
}

/// Where the notes of a row end that begin at a place.
fn end_of_notes(notes: &[Note], row: usize, begin: usize) -> usize
    requires { begin ≤ length notes.now }
    ensures later { begin ≤ result }
    ensures within { result ≤ length notes.now }
    ensures row { AllWithin (λ note. note.row ≡ row) notes.now begin result }
    ensures other { (d : Note) → result < length notes.now
        → (slice_index_or notes.now result d).row ≢ row }
{
    let mut end = begin;
    while end < notes.len() && notes[end].row as usize == row {
        end += 1;
    }
    end
}

/// Whether a mask is that of the row before, where there is one.
fn is_mask_before(before: Option<Mask>, mask: Mask) -> bool
    ensures { result ≡ is_mask_before before mask }
{
    match before {
        Some(before) => before.0 == mask.0,
        None => false,
    }
}

/// What is kept of rows and their notes. Of the rows of a state the first counts.
fn kept_of(job: &Job, rows: &[RowHead], notes: &[Note]) -> Kept
    requires notes { All (IsNote job.now rows.now) notes.now }
    requires order { AllPairs NoteIsBefore notes.now }
    requires actions { HaveActions job.now notes.now }
    ensures kept { IsKept job.now notes.now (last_states notes.now 0 None rows.now) result }
    ensures few { HasFew (length rows.now) (length notes.now) result }
{
    job.recall_valid();
    let mut kept = Kept::nothing();
    let mut begin = 0;
    let mut before = None;
    for (i, row) in rows.iter().enumerate() {
        let mask = row.key.mask;
        let end = end_of_notes(notes, i, begin);
        if !is_mask_before(before, mask) {
            kept.add(job, State { mask, begin, end }, &notes[begin..end]);
        }
        begin = end;
        before = Some(mask);
    }
    kept
}

/// What is kept of the rows of a good certificate.
pub fn collect(job: &Job, cert: &Cert) -> Kept
    requires notes { All (IsNote job.now cert.now.rows.items) cert.now.notes.items }
    requires order { AllPairs NoteIsBefore cert.now.notes.items }
    ensures kept { IsKept job.now cert.now.notes.items (states_of (cert_data cert.now)) result }
    ensures few { HasFew (length cert.now.rows.items) (length cert.now.notes.items) result }
{
    job.recall_valid();
    kept_of(job, cert.rows.as_slice(), cert.notes.as_slice())
}
