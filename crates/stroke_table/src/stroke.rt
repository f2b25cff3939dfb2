//! What is found out about a stroke.
ghost use Rattle.std.specs.Prelude.{◌≡◌, ◌<◌};
ghost use Rattle.stroke_table.specs.Strokes.{reason_at};

use brake_base::{Gauge, Reason, Turn};

/// The attitude of the part in a stroke, the first legal pair of its fingers, which is the same at
/// each stage, and the first reason against the stroke at each stage, by the stage's number. The places
/// past the last stage are None.
#[derive(Clone, Copy, Debug, PartialEq, Eq)]
pub struct Stroke {
    pub attitude: Turn,
    pub gauge: Option<Gauge>,
    pub reasons: [Option<Reason>; 6],
}

/// What is found out about a stroke at one stage: the attitude of the part, the first legal pair of
/// its fingers, and the first reason against the stroke there.
#[derive(Clone, Copy, Debug, PartialEq, Eq)]
pub struct StageStroke {
    pub attitude: Turn,
    pub gauge: Option<Gauge>,
    pub reason: Option<Reason>,
}

impl Stroke {
    /// The first reason against the stroke at a stage. None exactly where the stroke is legal there.
    pub fn reason(&self, stage: u8) -> Option<Reason>
        requires { stage < 6 }
        ensures { result ≡ reason_at self.now.reasons stage }
    {
        self.reasons[usize::from(stage)]
    }
}
