//! Rows of which each action is accounted for by what is known of their set, found for all stages of
//! all strokes at once.
ghost use Rattle.std.specs.Prelude.{◌≡◌, ℕ, ◌*◌, ◌<◌, ◌≤◌, IsTrue, List, slice_index};
ghost use Rattle.job_setup.specs.Setup.{bend_count, stage_count};
ghost use Rattle.plan_lines.specs.LinesFit.{IsRow};
ghost use Rattle.stage_lanes.specs.declared.actions.ActionSet.{ActionSet};
ghost use Rattle.cert_lines.specs.declared.row_head.RowHead.{RowHead};
ghost use Rattle.cert_check.specs.declared.proved_costs.ProvedCosts.{ProvedCosts};
ghost use Rattle.cert_check.specs.Rows.{AreMet};
ghost use Rattle.cert_check.specs.ProvedCosts.{AreProvedOf};
ghost use Rattle.cert_check.specs.ClosingCosts.{IsClosing, IsSmall};
ghost use Rattle.cert_check.specs.RowLanes.{IsOnward};

use crate::proved_costs::cost_of_worth;
use job_setup::Job;
use plan_cert::RowHead;
use set_facts::LaneFacts;
use stage_lanes::{StageCosts, StageSet};

/// Whether each action of a row is noted, or closed by what is proved of the next keys. False also
/// where that isn't known.
pub(crate) fn is_met(job: &Job, facts: &LaneFacts, head: &RowHead, closing: StageCosts) -> bool
    requires facts { facts.now ≡ job.now }
    requires head { IsRow job.now head.now }
    requires small { IsSmall closing.0 }
    ensures { IsTrue result → (rows : List RowHead) (proved : ProvedCosts) (noted : ActionSet)
        → proved.mask ≡ head.now.key.mask → AreProvedOf job.now rows proved
        → IsClosing job.now proved noted head.now.key.attitude closing.0
        → AreMet job.now rows head.now noted (2 * bend_count job.now * stage_count job.now) }
{
    job.recall_valid();
    let costs = closing.plus(onward(job, facts, head));
    let unclosed = costs.below(cost_of_worth(head.worth));
    unclosed
        .intersection(StageSet::first(job.stages()))
        .is_empty()
}

/// What a stroke at each stage costs at a row, but for the change of attitude.
fn onward(job: &Job, facts: &LaneFacts, head: &RowHead) -> StageCosts
    requires facts { facts.now ≡ job.now }
    requires head { IsRow job.now head.now }
    ensures { IsOnward job.now head.now.key result.0 }
{
    job.recall_valid();
    let stroke = StageCosts::all(job.setup().cost.stroke as u32);
    facts.ways(head.key.mask, head.key.stage).plus(stroke)
}
