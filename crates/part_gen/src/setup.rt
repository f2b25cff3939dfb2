//! The setup on which all made jobs are bent.
ghost use Rattle.std.specs.Prelude.{◌≡◌, ◌≤◌, ◌≤ℤ◌, pos, length};
ghost use Rattle.tool_library.specs.Tools.{punch_data, die_data};
ghost use Rattle.job_setup.specs.Setup.{stage_data, setup_data};
ghost use Rattle.part_gen.specs.CommonSetup.{rect, punch_p100, die_d16, stage_at, box_over, gauge_rule, handling_costs, common_setup};

use arrayvec::ArrayVec;
use brake_base::{Name, Rect};
use job_setup::{Setup, Stage};
use machine_file::{Costs, Fixed, GaugeRule};
use tool_library::{Die, Punch};

/// A text as a name.
pub(crate) fn name_of(text: &str) -> Name
    requires { length text.now ≤ 24 }
    ensures { result.bytes ≡ text.now }
{
    let mut name = Name::new();
    name.push_str(text);
    name
}

/// The rectangle with these ends.
fn rect(y0: i64, y1: i64, z0: i64, z1: i64) -> Rect
    ensures { result ≡ rect y0 y1 z0 z1 }
{
    Rect { y0, y1, z0, z1 }
}

/// A straight punch, 100 mm high.
fn punch_p100() -> Punch
    ensures { punch_data result ≡ punch_p100 }
{
    let mut body = ArrayVec::new();
    body.push(rect(-6000, 6000, 6000, 100_000));
    Punch {
        name: name_of("P100"),
        height: 100_000,
        nose: 6000,
        body,
        sections: ArrayVec::new(),
        limit: 0,
    }
}

/// A die with an opening of 16 mm, 60 mm high.
fn die_d16() -> Die
    ensures { die_data result ≡ die_d16 }
{
    let mut body = ArrayVec::new();
    body.push(rect(-20_000, -8000, -60_000, 0));
    body.push(rect(-8000, 8000, -60_000, -8000));
    body.push(rect(8000, 20_000, -60_000, 0));
    Die {
        name: name_of("D16"),
        height: 60_000,
        v: 16_000,
        least_flange: 11_000,
        body,
        sections: ArrayVec::new(),
        limit: 0,
    }
}

/// A stage with these tools and one piece.
fn stage_at(at: i64, piece: i64) -> Stage
    requires at_low { pos 0 ≤ℤ at }
    requires at_high { at ≤ℤ pos 1000000 }
    requires piece_low { pos 0 ≤ℤ piece }
    requires piece_high { piece ≤ℤ pos 1000000 }
    ensures { stage_data result ≡ stage_at at piece }
{
    let mut pieces = ArrayVec::new();
    pieces.push(piece);
    Stage {
        punch: punch_p100(),
        die: die_d16(),
        x0: at,
        x1: at + piece,
        pieces,
        load: 0,
        limit: 0,
    }
}

/// A box over the whole bed.
fn box_over(rect: Rect) -> Fixed
    ensures { result ≡ box_over rect }
{
    Fixed {
        x0: 0,
        x1: 3_000_000,
        rect,
    }
}

/// The rule of the backgauge.
fn gauge_rule() -> GaugeRule
    ensures { result ≡ gauge_rule }
{
    GaugeRule {
        near: 5000,
        far: 600_000,
        inset: 5000,
        finger: 10_000,
        gap: 10_000,
        depth: 20_000,
        above: 10_000,
        below: 10_000,
    }
}

/// What handling costs.
fn handling_costs() -> Costs
    ensures { result ≡ handling_costs }
{
    Costs {
        stroke: 100,
        quarter: 20,
        half: 30,
        flip: 60,
        roll: 80,
        stage: 40,
    }
}

/// A bed of 3 m with a stage of 100 mm and one of 60 mm, without gang strokes, without a limit of
/// force and with whole covers.
#[tactic(auto, unfolding(crate::specs::CommonSetup::common_setup))]
pub(crate) fn common_setup() -> Setup
    ensures { setup_data result ≡ common_setup }
{
    let mut upper = ArrayVec::new();
    upper.push(box_over(rect(-60_000, 60_000, 0, 300_000)));
    let mut lower = ArrayVec::new();
    lower.push(box_over(rect(-30_000, 30_000, -300_000, 0)));
    let mut stages = ArrayVec::new();
    stages.push(stage_at(200_000, 100_000));
    stages.push(stage_at(600_000, 60_000));
    Setup {
        bed: (0, 3_000_000),
        frames: ArrayVec::new(),
        upper,
        lower,
        uncovered: 5000,
        gauge: gauge_rule(),
        cost: handling_costs(),
        stages,
        gang: false,
        force: 0,
        fine: 0,
    }
}
