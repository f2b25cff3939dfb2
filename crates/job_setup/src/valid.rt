//! Which values are a valid stage, a valid setup, a valid job.
ghost use Rattle.std.specs.Prelude.{◌≡◌, ◌↔◌, ◌<◌, ◌≤◌, ◌≤ℤ◌, ◌+ℤ◌, pos, neg_ℤ, IsTrue, IsOk, All, [], length, map, Ok};
ghost use Rattle.part_file.specs.Part.{IsPart, part_data, half_thickness};
ghost use Rattle.unfolder.specs.Blank.{blank_of_part};
ghost use Rattle.tool_library.specs.Tools.{IsPunch, IsDie, IsLimit, punch_data, die_data};
ghost use Rattle.fold_boxes.specs.Shapes.{IsShape};
ghost use Rattle.toml_fields.specs.Ranges.{IsWithin};
ghost use Rattle.machine_file.specs.declared.bounds.TheConstants.{MOST_STAGES};
ghost use Rattle.machine_file.specs.Machine.{coordinate_limit, IsBedRange, IsFixed, IsPiece};
ghost use Rattle.job_setup.specs.Setup.{stage_data, setup_data};
ghost use Rattle.job_setup.specs.Stages.{total};
ghost use Rattle.job_setup.specs.Places.{places_fit};
ghost use Rattle.job_setup.specs.ValidJob.{IsStage, IsStageLoad, IsSetup, IsJobFrom, HasFixtures, HasRules, HasStages};

use crate::job::Job;
use crate::places::check_places;
use crate::setup::{Setup, Stage};
use crate::stages::total;
use allowance::GREATEST_HALF_DEDUCTION;
use machine_file::bounds::{
    COORDINATE_LIMIT, GREATEST_FINE, GREATEST_FORCE, GREATEST_PIECE, GREATEST_UNCOVERED,
    LEAST_PIECE,
};
use machine_file::{Fixed, are_within, is_bed_range};
use part_file::Part;
use toml_fields::is_within;
use tool_library::bounds::{GREATEST_LIMIT, GREATEST_LOAD};
use tool_library::{Die, Punch};
use unfolder::unfold;

/// Whether the punch keeps to its rules and has neither sections nor a limit.
fn is_bare_punch(punch: &Punch) -> bool
    ensures { IsTrue result
        ↔ (IsPunch (punch_data punch.now) × (punch.now.sections.items ≡ [])
        × (punch.now.limit ≡ pos 0)) }
{
    punch.is_valid() && punch.sections.is_empty() && punch.limit == 0
}

/// Whether the die keeps to its rules and has neither sections nor a limit.
fn is_bare_die(die: &Die) -> bool
    ensures { IsTrue result
        ↔ (IsDie (die_data die.now) × (die.now.sections.items ≡ []) × (die.now.limit ≡ pos 0)) }
{
    die.is_valid() && die.sections.is_empty() && die.limit == 0
}

/// Whether there are pieces, each of a length that the shop can have.
fn are_pieces(pieces: &[i64]) -> bool
    ensures { IsTrue result ↔ ((0 < length pieces.now) × All IsPiece pieces.now) }
{
    !pieces.is_empty() && are_within(pieces, LEAST_PIECE, GREATEST_PIECE)
}

/// Whether the stage begins where it may.
fn begins_near(stage: &Stage) -> bool
    ensures { IsTrue result ↔ IsWithin (neg_ℤ coordinate_limit) coordinate_limit stage.now.x0 }
{
    is_within(stage.x0, -COORDINATE_LIMIT, COORDINATE_LIMIT)
}

/// Whether the stage ends where its pieces end.
fn is_as_long_as_its_pieces(stage: &Stage) -> bool
    requires pieces { All IsPiece stage.now.pieces.items }
    requires begins { IsWithin (neg_ℤ coordinate_limit) coordinate_limit stage.now.x0 }
    ensures { IsTrue result ↔ (stage.now.x1 ≡ stage.now.x0 +ℤ total stage.now.pieces.items) }
{
    stage.x1 == stage.x0 + total(stage.pieces.as_slice())
}

/// Whether the load and the limit are in range.
fn is_loadable(stage: &Stage) -> bool
    ensures { IsTrue result ↔ (IsStageLoad stage.now.load × IsLimit stage.now.limit) }
{
    is_within(stage.load, 0, GREATEST_LOAD) && is_within(stage.limit, 0, GREATEST_LIMIT)
}

impl Stage {
    /// Whether a job can have the stage: its tools keep to the rules of the tools file and have
    /// neither sections nor a limit, it is as long as its pieces, and all its numbers are in range.
    pub fn is_valid(&self) -> bool
        ensures { IsTrue result ↔ IsStage (stage_data self.now) }
    {
        is_bare_punch(&self.punch)
            && is_bare_die(&self.die)
            && are_pieces(self.pieces.as_slice())
            && begins_near(self)
            && is_as_long_as_its_pieces(self)
            && is_loadable(self)
    }
}

/// Whether each range lies along the bed.
fn are_ranges(ranges: &[(i64, i64)]) -> bool
    ensures { IsTrue result ↔ All IsBedRange ranges.now }
{
    ranges.iter().all(|range| is_bed_range(range))
}

/// Whether each box is in range, between two heights.
fn are_between(boxes: &[Fixed], low: i64, high: i64) -> bool
    ensures { IsTrue result ↔ All (IsFixed low high) boxes.now }
{
    boxes.iter().all(|fixed| fixed.is_between(low, high))
}

/// Whether the frames and the fixed boxes are in range.
fn are_fixtures(setup: &Setup) -> bool
    ensures { IsTrue result ↔ HasFixtures (setup_data setup.now) }
{
    are_ranges(setup.frames.as_slice())
        && are_between(setup.upper.as_slice(), 0, COORDINATE_LIMIT)
        && are_between(setup.lower.as_slice(), -COORDINATE_LIMIT, 0)
}

/// Whether what may be uncovered, the force and the depth are in range.
fn are_limits(setup: &Setup) -> bool
    ensures { IsTrue result
        ↔ (IsWithin (pos 0) GREATEST_UNCOVERED setup.now.uncovered
        × IsWithin (pos 0) GREATEST_FORCE setup.now.force × (setup.now.fine ≤ GREATEST_FINE)) }
{
    is_within(setup.uncovered, 0, GREATEST_UNCOVERED)
        && is_within(setup.force, 0, GREATEST_FORCE)
        && setup.fine <= GREATEST_FINE
}

/// Whether the bed, the backgauge and the machine's numbers are in range.
fn are_rules(setup: &Setup) -> bool
    ensures { IsTrue result ↔ HasRules (setup_data setup.now) }
{
    is_bed_range(&setup.bed) && setup.gauge.is_valid() && setup.cost.is_valid() && are_limits(setup)
}

/// Whether each stage is valid.
fn are_valid(stages: &[Stage]) -> bool
    ensures { IsTrue result ↔ All IsStage (map stage_data stages.now) }
{
    stages.iter().all(|stage| stage.is_valid())
}

/// Whether the stages are equally high, apart, on the bed, and at least one.
fn are_placed(bed: &(i64, i64), stages: &[Stage]) -> bool
    requires { length stages.now ≤ MOST_STAGES }
    ensures { IsTrue result ↔ (places_fit bed.now (map stage_data stages.now) ≡ Ok tt) }
{
    check_places(bed, stages).is_ok()
}

/// Whether the stages are valid, equally high, apart, on the bed, and at least one.
fn are_stages(setup: &Setup) -> bool
    ensures { IsTrue result ↔ HasStages (setup_data setup.now) }
{
    are_valid(setup.stages.as_slice()) && are_placed(&setup.bed, setup.stages.as_slice())
}

impl Setup {
    /// Whether a job can have the setup: all its numbers are in range, and its stages are valid,
    /// equally high, apart, on the bed, and at least one.
    pub fn is_valid(&self) -> bool
        ensures { IsTrue result ↔ IsSetup (setup_data self.now) }
    {
        are_fixtures(self) && are_rules(self) && are_stages(self)
    }
}

/// Whether q is from half of the thickness to 100,000 micrometres.
fn is_deduction(part: &Part, q: i64) -> bool
    ensures { IsTrue result
        ↔ (half_thickness (part_data part.now) ≤ℤ q × q ≤ℤ GREATEST_HALF_DEDUCTION) }
{
    part.thickness / 2 <= q && q <= GREATEST_HALF_DEDUCTION
}

/// Whether the part unfolds with this half deduction.
fn has_blank(part: &Part, q: i64) -> bool
    requires part { IsPart (part_data part.now) }
    requires q_low { half_thickness (part_data part.now) ≤ℤ q }
    requires q_high { q ≤ℤ pos 100000 }
    ensures { IsTrue result ↔ IsOk (blank_of_part (part_data part.now) q) }
{
    unfold(part, q).is_ok()
}

/// Whether the part is valid and unfolds with this half deduction, which is in range.
fn is_shape(part: &Part, q: i64) -> bool
    ensures { IsTrue result ↔ IsShape (record { part = part_data part.now; q = q }) }
{
    part.is_valid() && is_deduction(part, q) && has_blank(part, q)
}

/// The job of values that may come from anywhere: a part, half of what its outside sizes lose at
/// each bend, in micrometres, and a setup. None exactly where they aren't a valid job: where the
/// part breaks a rule of its file or doesn't unfold, q isn't from half of the thickness to 100,000,
/// or the setup isn't valid, by [`Setup::is_valid`]. It takes no memory.
pub fn job_from(part: Part, q: i64, setup: Setup) -> Option<Job>
    ensures { IsJobFrom result (record { part = part_data part; q = q; setup = setup_data setup }) }
{
    if is_shape(&part, q) && setup.is_valid() {
        Some(Job::new(&part, q, setup))
    } else {
        None
    }
}
