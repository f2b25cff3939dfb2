//! The notes of a row as one block of text.
ghost use Rattle.std.specs.Prelude.{◌≡◌, ◌<◌, ◌++◌, [], length, OnOk, IfSome, IfNone};
ghost use Rattle.stage_lanes.specs.ActionSets.{IsNone};
ghost use Rattle.row_text.specs.Blocks.{block_text, IsBlock, IsFirstSplit};

use crate::short_text::ShortText;
use stage_lanes::{ActionSet, place};
use std::alloc::AllocError;

/// A set of actions, and the lines of their notes.
#[derive(Drop)]
pub(crate) struct NoteBlock {
    pub notes: ActionSet,
    pub text: Vec<u8>,
}

/// The place of the set's first action, and the set without it.
fn split_first(set: ActionSet) -> Option<(u8, ActionSet)>
    ensures some { IfSome result (λ split. IsFirstSplit set split.0 split.1) }
    ensures none { IfNone result (IsNone set) }
{
    let action = set.first()?;
    Some((place(action), set.except(action)))
}

/// Appends the line of each action of the set, in the order of their numbers.
fn put_lines(out: &mut Vec<u8>, lines: &[ShortText], notes: ActionSet) -> Result<(), AllocError>
    requires { length lines.now ≡ 192 }
    ensures { OnOk result (out.new.items ≡ out.old.items ++ block_text lines.now notes) }
{
    let mut rest = notes;
    while let Some((place, others)) = split_first(rest) {
        lines[usize::from(place)].put(out)?;
        rest = others;
    }
    Ok(())
}

impl NoteBlock {
    /// Makes it the block of no action.
    pub fn clear(&mut self)
        ensures notes { IsNone self.new.notes }
        ensures text { self.new.text.items ≡ [] }
    {
        self.notes = ActionSet::empty();
        self.text.clear();
    }

    /// Makes it the block of these actions. A block of the same actions stays as it is; after a
    /// refusal it is the block of no action.
    pub fn turn_to(&mut self, lines: &[ShortText], notes: ActionSet) -> Result<(), AllocError>
        requires lines { length lines.now ≡ 192 }
        requires block { IsBlock lines.now self.old }
        ensures notes { OnOk result (self.new.notes ≡ notes) }
        ensures block { IsBlock lines.now self.new }
    {
        if self.notes == notes {
            return Ok(());
        }
        self.clear();
        match put_lines(&mut self.text, lines, notes) {
            Ok(()) => {
                self.notes = notes;
                Ok(())
            }
            Err(error) => {
                self.clear();
                Err(error)
            }
        }
    }
}
