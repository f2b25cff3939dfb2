//! The stages beside one another on the bed.
ghost use Rattle.std.specs.Prelude.{◌≡◌, ◌+◌, ◌-◌, ◌≤◌, ◌<◌, length, map, find, position, IfSome};
ghost use Rattle.std.specs.List.{range_with_len};
ghost use Rattle.toml_fields.specs.Results.{first_below};
ghost use Rattle.unfolder.specs.Blank.{pairs_below};
ghost use Rattle.job_setup.specs.Setup.{stage_data};
ghost use Rattle.job_setup.specs.Places.{heights, range, is_unequal, differs_from_first, is_overlap, is_overlap_of, is_off_bed, refuse_pair, places_fit};

use crate::fault::JobFault;
use crate::setup::Stage;

/// Whether the punches or the dies aren't equally high.
fn is_unequal(a: &Stage, b: &Stage) -> bool
    ensures { result ≡ is_unequal (heights (stage_data a.now)) (heights (stage_data b.now)) }
{
    !(a.punch.height == b.punch.height && a.die.height == b.die.height)
}

/// Whether the punch or the die of the stage isn't as high as that of stage 0.
fn differs_from_first(stages: &[Stage], i: usize) -> bool
    requires { i < length stages.now }
    ensures { result ≡ differs_from_first (map stage_data stages.now) i }
{
    is_unequal(&stages[0], &stages[i])
}

/// The first stage whose punch or die isn't as high as that of stage 0.
#[tactic(auto, using(crate::proofs::Lists::seen))]
fn first_unequal(stages: &[Stage]) -> Option<usize>
    ensures value { result ≡ first_below (differs_from_first (map stage_data stages.now))
        (length stages.now) }
    ensures within { IfSome result (λ i. i < length stages.now) }
{
    (0..stages.len()).find(|i| differs_from_first(stages, *i))
}

/// Whether the ranges of two stages share an interior point.
fn is_overlap(a: &Stage, b: &Stage) -> bool
    ensures { result ≡ is_overlap (range (stage_data a.now)) (range (stage_data b.now)) }
{
    a.x0.max(b.x0) < a.x1.min(b.x1)
}

/// Whether stage `b` overlaps stage `a`.
fn is_overlap_of(stages: &[Stage], a: usize, b: usize) -> bool
    requires a { a < length stages.now }
    requires b { b < length stages.now }
    ensures { result ≡ is_overlap_of (map stage_data stages.now) (a, b) }
{
    is_overlap(&stages[a], &stages[b])
}

/// The first stage after stage `a` that overlaps it.
fn first_over(stages: &[Stage], a: usize) -> Option<usize>
    requires { a < length stages.now }
    ensures within { IfSome result (λ b. b < length stages.now) }
    ensures value { result ≡ find (λ b. is_overlap_of (map stage_data stages.now) (a, b))
        (range_with_len (a + 1) (length stages.now - (a + 1))) }
{
    (a + 1..stages.len()).find(|b| is_overlap_of(stages, a, *b))
}

/// The first two stages that overlap.
#[tactic(auto, using(crate::proofs::Lists::seen))]
fn first_overlap(stages: &[Stage]) -> Option<(u8, u8)>
    requires { length stages.now ≤ 6 }
    ensures { result ≡ find (is_overlap_of (map stage_data stages.now))
        (pairs_below (length stages.now)) }
{
    for a in 0..stages.len() {
        if let Some(b) = first_over(stages, a) {
            return Some((a as u8, b as u8));
        }
    }
    None
}

/// Whether the stage isn't within the bed.
fn is_off_bed(bed: &(i64, i64), stage: &Stage) -> bool
    ensures { result ≡ is_off_bed bed.now (stage_data stage.now) }
{
    !(bed.0 <= stage.x0 && stage.x1 <= bed.1)
}

/// The first stage that isn't within the bed.
fn first_off_bed(bed: &(i64, i64), stages: &[Stage]) -> Option<usize>
    ensures value { result ≡ position (λ stage. is_off_bed bed.now (stage_data stage)) stages.now }
    ensures within { IfSome result (λ i. i < length stages.now) }
{
    stages.iter().position(|stage| is_off_bed(bed, stage))
}

/// Refuses the first stage that isn't as high as stage 0, then the first two stages that overlap,
/// then the first stage off the bed, and then that there is no stage.
#[tactic(auto, using(crate::proofs::Lists::seen), unfolding(crate::specs::Places::places_fit))]
pub fn check_places(bed: &(i64, i64), stages: &[Stage]) -> Result<(), JobFault>
    requires { length stages.now ≤ 6 }
    ensures { result ≡ places_fit bed.now (map stage_data stages.now) }
{
    if let Some(stage) = first_unequal(stages) {
        return Err(JobFault::UnequalHeight { stage: stage as u8 });
    }
    if let Some((a, b)) = first_overlap(stages) {
        return Err(JobFault::StageOverlap { a, b });
    }
    if let Some(stage) = first_off_bed(bed, stages) {
        return Err(JobFault::OffBed { stage: stage as u8 });
    }
    if stages.is_empty() {
        return Err(JobFault::NoStage);
    }
    Ok(())
}
