//! Notes that stand behind one another at the front of a text, each with a line that is known.
ghost use Rattle.std.specs.Prelude.{◌≡◌, ◌∷◌, ◌++◌, ◌↔◌, ◌+◌, ◌*◌, min, ℕ, ◌≤◌, ◌<◌, List, slice_index_or, None, IfSome, IsNone, IsTrue};
ghost use Rattle.brake_base.specs.declared.mask.Mask.{Mask};
ghost use Rattle.plan_lines.specs.Facts.{HasFew};
ghost use Rattle.plan_lines.specs.NoteLines.{known_reasons, AreHeld, MayStand, IsRun, line_of};

use crate::job_facts::JobFacts;
use crate::note::KnownNote;
use brake_base::{Mask, action_number};
use stage_lanes::ActionSet;

/// The actions of notes that were taken, how many they are, what number the action of the next note
/// has at least, and the text behind them.
#[derive(Clone, Copy)]
pub struct NoteRun<'a> {
    pub notes: ActionSet,
    pub count: u8,
    pub least: u8,
    pub rest: &'a [u8],
}

/// The lines of a row's notes as one text: the leads there, the actions, how many they are, and what
/// number the action of the next note has at least.
#[derive(Clone, Copy)]
pub struct NoteBlock<'a> {
    pub leads: Mask,
    pub notes: ActionSet,
    pub count: u8,
    pub least: u8,
    pub text: &'a [u8],
}

/// The number of the action at a stage with one of the 24 sides at the back, or the greatest number.
fn number_at(side: u8, stages: u8, stage: u8) -> u8
    requires side { side < 24 }
    requires stages { stages ≤ 6 }
    requires stage { stage < 8 }
    ensures value { result ≡ min (side * stages + stage) 143 }
    ensures below { result < 144 }
{
    (side * stages + stage).min(143)
}

/// The number of the action whose note's line may begin the text. It is a guess: the line itself
/// must be compared.
pub fn likely_number(text: &[u8], stages: u8) -> Option<u8>
    requires { stages ≤ 6 }
    ensures { IfSome result (λ number. number < 144) }
{
    let [b'x', _, first, second, third, fourth, fifth, sixth, ..] = text else {
        return None;
    };
    let (bend, back, stage) = if *second == b' ' {
        (*first % 16, *third % 2, *fifth % 8)
    } else {
        (*second % 16 + 10, *fourth % 2, *sixth % 8)
    };
    Some(number_at((bend.clamp(1, 12) - 1) * 2 + back, stages, stage))
}

/// The note that is held at a number.
pub fn held_at<'a>(notes: &[Option<KnownNote<'a>>; 144], number: u8) -> Option<KnownNote<'a>>
    requires { number < 144 }
    ensures { result ≡ slice_index_or notes.now number None }
{
    notes[usize::from(number)]
}

/// Whether no note is held at a number.
pub fn is_free(notes: &[Option<KnownNote>; 144], number: u8) -> bool
    requires { number < 144 }
    ensures { IsTrue result ↔ (slice_index_or notes.now number None ≡ None) }
{
    held_at(notes, number).is_none()
}

/// What stands behind the line feed with which the text begins.
fn behind_line_feed(text: &[u8]) -> Option<&[u8]>
    ensures some { IfSome result (λ rest. text.now ≡ 10 ∷ rest.now) }
    ensures none { IsNone result → (rest : List ℕ) → text.now ≡ 10 ∷ rest → ⊥ }
{
    match text {
        [b'\n', rest @ ..] => Some(rest),
        _ => None,
    }
}

/// What stands behind the note's line, where the text begins with it.
pub fn behind_note<'a>(text: &'a [u8], note: &KnownNote) -> Option<&'a [u8]>
    ensures some { IfSome result (λ rest. text.now ≡ line_of note.now ++ rest.now) }
    ensures none { IsNone result → (rest : List ℕ) → text.now ≡ line_of note.now ++ rest → ⊥ }
{
    let behind = text.strip_prefix(note.line)?;
    let rest = behind_line_feed(behind)?;
    Some(rest)
}

/// The known note with whose line the text goes on and which may stand there, and what stands behind
/// it.
fn next_note<'a, 'b>(
    notes: &[Option<KnownNote<'a>>; 144],
    facts: &JobFacts,
    leads: Mask,
    run: &NoteRun<'b>,
) -> Option<(KnownNote<'a>, &'b [u8])>
    requires few { HasFew facts.now }
    requires held { AreHeld facts.now notes.now }
    ensures { IfSome result (λ x. MayStand facts.now notes.now leads run.now.least x.0
        × (run.now.rest.now ≡ line_of x.0 ++ x.1.now)) }
{
    let number = likely_number(run.rest, facts.stages)?;
    let note = held_at(notes, number)?;
    if number < run.least || !leads.contains(note.action.bend) {
        return None;
    }
    let rest = behind_note(run.rest, &note)?;
    Some((note, rest))
}

/// Takes the known notes with whose lines the text goes on.
pub fn take_lines<'a, 'b>(
    notes: &[Option<KnownNote<'a>>; 144],
    facts: &JobFacts,
    leads: Mask,
    run: &mut NoteRun<'b>,
)
    requires few { HasFew facts.now }
    requires held { AreHeld facts.now notes.now }
    requires count { run.old.count ≤ run.old.least }
    ensures { (least : ℕ) (text : List ℕ)
        → IsRun facts.now (known_reasons facts.now.stages notes.now) leads least text run.old
        → IsRun facts.now (known_reasons facts.now.stages notes.now) leads least text run.new }
{
    while let Some((note, rest)) = next_note(notes, facts, leads, run) {
        run.notes = run.notes.with(note.action);
        run.count += 1;
        run.least = action_number(note.action, facts.stages) + 1;
        run.rest = rest;
    }
}
