//! The strokes of a state that no note is against.
ghost use Rattle.std.specs.Prelude.{◌≡◌, ℕ, ◌<◌, ◌≤◌, ◌||◌, ◌&&◌, not, length};
ghost use Rattle.brake_base.specs.declared.stroke.Back.{Back};
ghost use Rattle.brake_base.specs.Actions.{IsActionAmong};
ghost use Rattle.job_setup.specs.Setup.{stage_count};
ghost use Rattle.sheet_page.specs.Left.{is_noted, is_left_so, left_of, strokes_left};
ghost use Rattle.sheet_page.specs.Ways.{is_way, has_mark};

use crate::ways::Ways;
use brake_base::{Action, Back, Mask, action_number};
use handling_cost::is_lead;
use job_setup::Job;
use plan_cert::Note;

/// Whether a note is against an action.
fn is_noted(job: &Job, notes: &[Note], action: Action) -> bool
    requires { IsActionAmong 12 (stage_count job.now) action }
    ensures { result ≡ is_noted job.now notes.now action }
{
    let number = action_number(action, job.stages());
    notes.iter().any(|note| note.action == number)
}

/// Adds the way of an action, where no note is against it.
fn add_left(ways: &mut Ways, job: &Job, notes: &[Note], action: Action)
    requires action { IsActionAmong 12 (stage_count job.now) action }
    requires stage { action.stage < 6 }
    ensures { (back : Back) (station : ℕ) → has_mark ways.new back station
        ≡ (has_mark ways.old back station
        || (is_way action back station && not (is_noted job.now notes.now action))) }
{
    if !is_noted(job, notes, action) {
        ways.add(action);
    }
}

/// The ways in which a bend can be tried and no note is against it.
pub fn ways_left(job: &Job, notes: &[Note], bend: u8) -> Ways
    requires some { 0 < bend }
    requires few { bend ≤ 12 }
    ensures { (back : Back) (station : ℕ) → has_mark result back station
        ≡ is_left_so job.now notes.now bend back station }
{
    let mut ways = Ways::none();
    for stage in 0..job.stages() {
        add_left(
            &mut ways,
            job,
            notes,
            Action {
                bend,
                back: Back::Parent,
                stage,
            },
        );
        add_left(
            &mut ways,
            job,
            notes,
            Action {
                bend,
                back: Back::Child,
                stage,
            },
        );
    }
    ways
}

/// In how many ways a bend is left, where a stroke of it can be tried.
#[tactic(auto, unfolding(crate::specs::Left::left_of))]
pub fn left_of(job: &Job, mask: Mask, notes: &[Note], bend: u8) -> usize
    requires some { 0 < bend }
    requires bend { bend < length job.now.part.faces }
    requires few { bend ≤ 12 }
    ensures value { result ≡ left_of job.now mask notes.now bend }
    ensures few { result ≤ 12 }
{
    if !is_lead(job, mask, bend) {
        return 0;
    }
    ways_left(job, notes, bend).count()
}

/// How many strokes are left.
pub fn strokes_left(job: &Job, mask: Mask, notes: &[Note]) -> usize
    ensures value { result ≡ strokes_left job.now mask notes.now }
    ensures few { result ≤ 144 }
{
    let mut count = 0;
    for bend in 1..job.bends() + 1 {
        count += left_of(job, mask, notes, bend);
    }
    count
}
