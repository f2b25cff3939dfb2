//! A reason that may be missing, in four bytes.
ghost use Rattle.std.specs.Prelude.{◌≡◌, Some};

use brake_base::{Half, Quarter, Reason};
use std::mem::size_of;

/// The reason that the rows with a set of folded bends have in common for an action, or that none was
/// found: an `Option<Reason>` without the fifth byte. A pool has up to 9,437,184 of these.
#[derive(Clone, Copy)]
pub enum KeptReason {
    Unset,
    Cover,
    Rest(Half),
    Frame(u8),
    Upper(u8, Quarter, u8),
    Nose(u8, Quarter, u8),
    Lower(u8, Quarter, u8),
    SelfHit(u8, Quarter, u8),
    NoGauge,
    Load,
}

const _: () = prove!(size_of::<KeptReason>() == 4);

impl KeptReason {
    ghost use Rattle.row_pool.specs.Notes.{reason_of};

    /// The note of a reason.
    pub fn of(reason: Reason) -> KeptReason
        ensures reason { reason_of result ≡ Some reason }
    {
        match reason {
            Reason::Cover => KeptReason::Cover,
            Reason::Rest(half) => KeptReason::Rest(half),
            Reason::Frame(piece) => KeptReason::Frame(piece),
            Reason::Upper(piece, quarter, obstacle) => KeptReason::Upper(piece, quarter, obstacle),
            Reason::Nose(piece, quarter, stage) => KeptReason::Nose(piece, quarter, stage),
            Reason::Lower(piece, quarter, obstacle) => KeptReason::Lower(piece, quarter, obstacle),
            Reason::SelfHit(back, quarter, front) => KeptReason::SelfHit(back, quarter, front),
            Reason::NoGauge => KeptReason::NoGauge,
            Reason::Load => KeptReason::Load,
        }
    }

    /// The reason that was noted, if one was.
    pub fn reason(self) -> Option<Reason>
        ensures reason { result ≡ reason_of self }
    {
        match self {
            KeptReason::Unset => None,
            KeptReason::Cover => Some(Reason::Cover),
            KeptReason::Rest(half) => Some(Reason::Rest(half)),
            KeptReason::Frame(piece) => Some(Reason::Frame(piece)),
            KeptReason::Upper(piece, quarter, obstacle) => Some(Reason::Upper(
                piece, quarter, obstacle,
            )),
            KeptReason::Nose(piece, quarter, stage) => Some(Reason::Nose(piece, quarter, stage)),
            KeptReason::Lower(piece, quarter, obstacle) => Some(Reason::Lower(
                piece, quarter, obstacle,
            )),
            KeptReason::SelfHit(back, quarter, front) => Some(Reason::SelfHit(
                back, quarter, front,
            )),
            KeptReason::NoGauge => Some(Reason::NoGauge),
            KeptReason::Load => Some(Reason::Load),
        }
    }
}
