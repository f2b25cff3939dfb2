//! The setup of a machine. Lengths are in micrometres: x runs along the bed.
ghost use Rattle.std.specs.Prelude.{◌≡◌, ◌≤◌, map, length};
ghost use Rattle.job_setup.specs.Setup.{stage_data, setup_data};

use arrayvec::ArrayVec;
use brake_base::Name;
use machine_file::bounds::{MOST_BOXES, MOST_FRAMES, MOST_PIECES, MOST_STAGES};
use machine_file::{Costs, Fixed, GaugeRule};
use tool_library::{Die, Punch};

/// A place on the bed with a punch and a die, from `x0` to `x1`, both made of its pieces.
/// Its tools have no sections and no limit of their own. `load` is what a stroke needs in newtons
/// per millimetre, or 0 where the shop has no load table; `limit` is the greatest load, or 0 for
/// no limit.
#[derive(Debug, Drop)]
pub struct Stage {
    pub punch: Punch,
    pub die: Die,
    pub x0: i64,
    pub x1: i64,
    pub pieces: ArrayVec<i64, MOST_PIECES>,
    pub load: i64,
    pub limit: i64,
}

impl Default for Stage {
    fn default() -> Self {
        Stage {
            punch: Punch {
                name: Name::new(),
                height: 0,
                nose: 0,
                body: ArrayVec::new(),
                sections: ArrayVec::new(),
                limit: 0,
            },
            die: Die {
                name: Name::new(),
                height: 0,
                v: 0,
                least_flange: 0,
                body: ArrayVec::new(),
                sections: ArrayVec::new(),
                limit: 0,
            },
            x0: 0,
            x1: 0,
            pieces: ArrayVec::new(),
            load: 0,
            limit: 0,
        }
    }
}

/// A machine with the stages that stand on it. `uncovered` is how much of a bend line may lie
/// outside its stage; `gang` says whether several flanges of one side may be bent in one stroke;
/// `force` is the greatest force in newtons, and 0 where there is no limit; `fine` is how often in a
/// row a piece of the part may be halved in the sweep.
#[derive(Debug, Drop)]
pub struct Setup {
    pub bed: (i64, i64),
    pub frames: ArrayVec<(i64, i64), MOST_FRAMES>,
    pub upper: ArrayVec<Fixed, MOST_BOXES>,
    pub lower: ArrayVec<Fixed, MOST_BOXES>,
    pub uncovered: i64,
    pub gauge: GaugeRule,
    pub cost: Costs,
    pub stages: ArrayVec<Stage, MOST_STAGES>,
    pub gang: bool,
    pub force: i64,
    pub fine: u8,
}

/// A copy of the pieces.
pub(crate) fn copy_pieces(pieces: &ArrayVec<i64, MOST_PIECES>) -> ArrayVec<i64, MOST_PIECES>
    ensures { result.items ≡ pieces.now.items }
{
    let mut copy = ArrayVec::new();
    let _ = copy.try_extend_from_slice(pieces.as_slice());
    copy
}

impl Stage {
    /// A copy of the stage. It takes no memory.
    pub fn copy(&self) -> Stage
        ensures { stage_data result ≡ stage_data self.now }
    {
        Stage {
            punch: self.punch.copy(),
            die: self.die.copy(),
            x0: self.x0,
            x1: self.x1,
            pieces: copy_pieces(&self.pieces),
            load: self.load,
            limit: self.limit,
        }
    }
}

/// Copies of the stages.
fn copy_stages(stages: &[Stage]) -> ArrayVec<Stage, MOST_STAGES>
    requires { length stages.now ≤ MOST_STAGES }
    ensures { map stage_data result.items ≡ map stage_data stages.now }
{
    let mut copies = ArrayVec::new();
    for stage in stages {
        copies.push(stage.copy());
    }
    copies
}

/// Copies of the boxes.
fn copy_boxes(boxes: &ArrayVec<Fixed, MOST_BOXES>) -> ArrayVec<Fixed, MOST_BOXES>
    ensures { result.items ≡ boxes.now.items }
{
    let mut copy = ArrayVec::new();
    let _ = copy.try_extend_from_slice(boxes.as_slice());
    copy
}

impl Setup {
    /// A copy of the setup. It takes no memory.
    pub fn copy(&self) -> Setup
        ensures { setup_data result ≡ setup_data self.now }
    {
        let mut frames = ArrayVec::new();
        let _ = frames.try_extend_from_slice(self.frames.as_slice());
        Setup {
            bed: self.bed,
            frames,
            upper: copy_boxes(&self.upper),
            lower: copy_boxes(&self.lower),
            uncovered: self.uncovered,
            gauge: self.gauge,
            cost: self.cost,
            stages: copy_stages(self.stages.as_slice()),
            gang: self.gang,
            force: self.force,
            fine: self.fine,
        }
    }
}
