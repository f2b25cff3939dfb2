//! The setups that are to be tried. Lengths are in micrometres: x runs along the bed.

use crate::bounds::MOST_SETUPS;
use arrayvec::ArrayVec;
use brake_base::Name;
use machine_file::bounds::MOST_STAGES;

/// A stage that is wanted: the names of its punch and die, where it begins on the bed, and how long
/// it is.
#[derive(Clone, Copy, Debug, Default)]
pub struct StageWant {
    pub punch: Name,
    pub die: Name,
    pub at: i64,
    pub length: i64,
}

/// A setup to be tried: the stages that stand on the machine in place of its own.
#[derive(Debug, Default, Drop)]
pub struct OneSetup {
    pub name: Name,
    pub stages: ArrayVec<StageWant, MOST_STAGES>,
}

/// The setups to be tried, in the order of their file.
#[derive(Debug, Drop)]
pub struct Setups {
    pub list: ArrayVec<OneSetup, MOST_SETUPS>,
}
