//! What is kept of a stroke and of a box.

use brake_base::{Gauge, Place, Turn};
use fold_boxes::PoseBox;
use stage_lanes::StageCodes;

/// What is found of a box of a stroke: the codes of the first reasons of the kinds Frame, Upper, Nose
/// and Lower that it gives by itself at each stage, the box at stage 0, and where the face lies whose
/// core it is.
#[derive(Clone, Copy)]
pub struct FoundBox {
    pub codes: StageCodes,
    pub body: PoseBox,
    pub place: Place,
}

/// The first legal pair of a stroke, where it was looked for.
#[derive(Clone, Copy)]
pub enum FoundGauge {
    Unsought,
    Sought(Option<Gauge>),
}

/// What is found of a stroke: the codes of the first reasons against it at all stages, and the first
/// legal pair.
#[derive(Clone, Copy)]
pub struct KnownStroke {
    pub codes: StageCodes,
    pub gauge: FoundGauge,
}

/// What the table keeps of a stroke: the attitude of the part, and what is found.
#[derive(Clone, Copy)]
pub struct KeptStroke {
    pub attitude: Turn,
    pub found: KnownStroke,
}

/// How the part is held in a stroke: its attitude, and the first legal pair of the fingers.
#[derive(Clone, Copy)]
pub struct Hold {
    pub attitude: Turn,
    pub gauge: Option<Gauge>,
}
