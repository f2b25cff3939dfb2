//! What closes the actions of rows that are held alike and have the same notes, found once for such
//! rows that stand together, a lane for each stage.
ghost use Rattle.std.specs.Prelude.{◌≡◌, ◌≤◌};
ghost use Rattle.job_setup.specs.Setup.{JobData, bend_count};
ghost use Rattle.cert_check.specs.declared.proved_costs.ProvedCosts.{ProvedCosts};
ghost use Rattle.cert_check.specs.ClosingCosts.{AreCostsOf, IsSmall, ClosesSide, ClosesBend, IsClosing, AreFound};

use crate::proved_costs::{NO_WAY, ProvedCosts};
use brake_base::{Back, Turn};
use job_setup::Job;
use set_facts::LaneFacts;
use stage_lanes::{ActionSet, StageCosts};

/// How rows of a set of folded bends are held, and the actions that are noted at each of them.
#[derive(Clone, Copy, PartialEq, Eq)]
pub(crate) struct AlikeRows {
    pub attitude: Turn,
    pub noted: ActionSet,
}

/// What closes the actions of such rows, by stage.
#[derive(Clone, Copy)]
struct FoundCosts {
    rows: AlikeRows,
    costs: StageCosts,
}

/// What closes the actions of the rows of a set that were looked at last: the least of what each
/// action without a note costs by the change of attitude and by what is proved behind it. Rows stand
/// in the order of their keys, so those that are held alike stand together.
#[derive(Clone, Copy)]
pub(crate) struct ClosingCosts {
    found: Option<FoundCosts>,
}

impl ClosingCosts {
    /// Nothing is found yet.
    pub fn none() -> ClosingCosts
        ensures { (job : JobData) (proved : ProvedCosts) → AreFound job proved result }
    {
        ClosingCosts { found: None }
    }

    /// What closes the actions of these rows: at no stage more than an action without a note costs by
    /// the change of attitude and by what is proved behind it.
    pub fn at(
        &mut self,
        job: &Job,
        facts: &LaneFacts,
        proved: &ProvedCosts,
        rows: AlikeRows,
    ) -> StageCosts
        requires facts { facts.now ≡ job.now }
        requires proved { AreCostsOf job.now proved.now }
        requires found { AreFound job.now proved.now self.old }
        ensures closing { IsClosing job.now proved.now rows.noted rows.attitude result.0 }
        ensures found { AreFound job.now proved.now self.new }
    {
        let last = self.found;
        match last {
            Some(found) if found.rows == rows => found.costs,
            _ => {
                let costs = closing_costs(job, facts, proved, &rows);
                self.found = Some(FoundCosts { rows, costs });
                costs
            }
        }
    }
}

/// What closes the actions of all leads.
fn closing_costs(job: &Job, facts: &LaneFacts, proved: &ProvedCosts, rows: &AlikeRows) -> StageCosts
    requires facts { facts.now ≡ job.now }
    requires proved { AreCostsOf job.now proved.now }
    ensures { IsClosing job.now proved.now rows.now.noted rows.now.attitude result.0 }
{
    let mut least = StageCosts::all(NO_WAY);
    for bend in 1..job.bends() + 1 {
        if proved.leads.contains(bend) {
            least = least.lesser(bend_costs(job, facts, proved, rows, bend));
        }
    }
    least
}

/// What closes the actions of a bend.
fn bend_costs(
    job: &Job,
    facts: &LaneFacts,
    proved: &ProvedCosts,
    rows: &AlikeRows,
    bend: u8,
) -> StageCosts
    requires facts { facts.now ≡ job.now }
    requires proved { AreCostsOf job.now proved.now }
    requires first { 1 ≤ bend }
    requires last { bend ≤ bend_count job.now }
    ensures closes { ClosesBend job.now proved.now rows.now.noted rows.now.attitude bend result.0 }
    ensures small { IsSmall result.0 }
{
    let parent = side_costs(job, facts, proved, rows, bend, Back::Parent);
    let child = side_costs(job, facts, proved, rows, bend, Back::Child);
    parent.lesser(child)
}

/// What closes the actions of a bend with this side at the back: what each costs by the change of
/// attitude and by what is proved behind it, and [`NO_WAY`] where it is noted.
fn side_costs(
    job: &Job,
    facts: &LaneFacts,
    proved: &ProvedCosts,
    rows: &AlikeRows,
    bend: u8,
    back: Back,
) -> StageCosts
    requires facts { facts.now ≡ job.now }
    requires proved { AreCostsOf job.now proved.now }
    requires first { 1 ≤ bend }
    requires last { bend ≤ bend_count job.now }
    ensures closes { ClosesSide job.now proved.now rows.now.noted rows.now.attitude bend back
        result.0 }
    ensures small { IsSmall result.0 }
{
    job.recall_valid();
    let attitude = facts.attitude(proved.mask, bend, back);
    let change = facts.change(rows.attitude, attitude);
    let costs = proved.costs.side(bend, back).plus(StageCosts::all(change));
    StageCosts::all(NO_WAY).only(rows.noted.stages(bend, back), costs)
}
