//! The reasons that are noted at a row, from its notes and as notes.
ghost use Rattle.std.specs.Prelude.{◌≡◌, ℕ, ◌<◌, ◌++◌, OnOk, All, slice_set, Some, None, slice_index_or};
ghost use Rattle.cert_merge.specs.Merged.{reason_noted};
ghost use Rattle.cert_merge.specs.MergeSteps.{most_actions, noted_as, notes_upto};

use brake_base::Reason;
use plan_cert::Note;
use std::alloc::AllocError;

/// The reasons of the notes of a row, by the numbers of their actions.
pub(crate) fn reasons_in(notes: &[Note]) -> [Option<Reason>; 144]
    requires { All (λ note. note.action < 144) notes.now }
    ensures { (row action : ℕ) → All (λ note. note.row ≡ row) notes.now
        → slice_index_or result action None ≡ reason_noted notes.now row action }
{
    let mut reasons = [None; 144];
    for note in notes {
        keep(&mut reasons, note);
    }
    reasons
}

/// Keeps the reason of a note.
fn keep(reasons: &mut [Option<Reason>; 144], note: &Note)
    requires { note.now.action < 144 }
    ensures { reasons.new ≡ slice_set reasons.old note.now.action (Some note.now.reason) }
{
    reasons[usize::from(note.action)] = Some(note.reason);
}

/// Puts a note for each reason, in the order of the actions.
pub(crate) fn put_reasons(
    notes: &mut Vec<Note>,
    row: u32,
    reasons: &[Option<Reason>; 144],
) -> Result<(), AllocError>
    ensures { OnOk result (notes.new.items ≡ notes.old.items
        ++ notes_upto row (λ action. slice_index_or reasons.now action None) most_actions) }
{
    for action in 0..144u8 {
        put_reason(notes, row, action, reasons[usize::from(action)])?;
    }
    Ok(())
}

/// Puts a note of a reason against an action, where there is one.
fn put_reason(
    notes: &mut Vec<Note>,
    row: u32,
    action: u8,
    noted: Option<Reason>,
) -> Result<(), AllocError>
    ensures { OnOk result (notes.new.items ≡ notes.old.items ++ noted_as row action noted) }
{
    if let Some(reason) = noted {
        notes.push(Note {
            row,
            action,
            reason,
        })?;
    }
    Ok(())
}
