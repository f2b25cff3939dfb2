//! What a reader gives.

use brake_base::{Reason, Step, Worth};
use cert_lines::RowHead;
use job_setup::Job;
use std::alloc::{AllocError, AllocFailed};

/// What a line of a certificate or a table file gives, or its job lines together.
#[derive(Drop)]
pub enum Item {
    Job(Job),
    Claim(Worth),
    Step(Step),
    Row(RowHead),
    /// A reason against an action, by its number, at the key of the last row.
    Note { action: u8, reason: Reason },
    End,
}

/// What a line behind the job gives.
#[derive(Clone, Copy, Debug, PartialEq, Eq)]
pub enum PlanItem {
    Claim(Worth),
    Step(Step),
    Row(RowHead),
    /// A reason against an action, by its number, at the key of the last row.
    Note { action: u8, reason: Reason },
    End,
}

impl From<PlanItem> for Item {
    ghost use Rattle.std.specs.Prelude.{◌≡◌};
    ghost use Rattle.plan_lines.specs.PlanItem.{item_of};

    ghost from_gives = { λ plan item. item ≡ item_of plan };

    fn from(item: PlanItem) -> Self {
        match item {
            PlanItem::Claim(claim) => Item::Claim(claim),
            PlanItem::Step(step) => Item::Step(step),
            PlanItem::Row(row) => Item::Row(row),
            PlanItem::Note { action, reason } => Item::Note { action, reason },
            PlanItem::End => Item::End,
        }
    }
}

/// Why a text is refused.
#[derive(Clone, Copy, Debug, PartialEq, Eq)]
pub enum CertFault {
    /// The first whole line, counted from 1, that the grammar doesn't allow there.
    BadLine { line: u32 },
    /// The text ends before a whole `end` line.
    Unended,
    /// A byte follows the `end` line.
    Trailing,
    /// The job lines are no valid job.
    BadJob,
    /// There was no memory.
    NoMemory,
}

impl From<AllocError> for CertFault {
    ghost use Rattle.std.specs.Prelude.{◌≡◌};
    ghost use Rattle.plan_lines.specs.declared.item.CertFault.TheVariants.{NoMemory};

    ghost from_gives = { λ _ fault. fault ≡ NoMemory };

    fn from(_: AllocError) -> Self {
        CertFault::NoMemory
    }
}

impl<T: Drop> From<AllocFailed<T>> for CertFault {
    ghost use Rattle.std.specs.Prelude.{◌≡◌};
    ghost use Rattle.plan_lines.specs.declared.item.CertFault.TheVariants.{NoMemory};

    ghost from_gives = { λ _ fault. fault ≡ NoMemory };

    fn from(_: AllocFailed<T>) -> Self {
        CertFault::NoMemory
    }
}
