//! A search and its run.
ghost use Rattle.std.specs.Prelude.{◌≡◌, ℕ, ◌*◌, None, Some, [], IfOk};
ghost use Rattle.undo_region.specs.Room.{list_with_room};
ghost use Rattle.job_setup.specs.Setup.{shape_of, stage_count};
ghost use Rattle.job_setup.specs.ValidJob.{IsJob};
ghost use Rattle.handling_cost.specs.Plan.{start};
ghost use Rattle.row_pool.specs.Rows.{Pool, empty_pool};
ghost use Rattle.bb_search.specs.Settling.{IsFound};
ghost use Rattle.bb_search.specs.KnownActions.{AreKnown};
ghost use Rattle.bb_search.specs.Outcomes.{AreSteps, outcome_of, outcome_with, IsAnswer, AreWithinBudget};
ghost use Rattle.bb_search.specs.Searches.{opened};
ghost use Rattle.bb_search.specs.Certificates.{HasAnswer, IsWritten};

use crate::outcome::Outcome;
use crate::pieces::CertPieces;
use crate::plan::kept_plan;
use crate::reach::nodes;
use crate::search_table::SearchTable;
use crate::settle::settle;
use crate::written::{WrittenCert, copy_of};
use arrayvec::ArrayVec;
use bend_state::BendState;
use brake_base::{Place, Step, Worth};
use handling_cost::start_key;
use job_setup::Job;
use row_pool::RowPool;
use std::alloc::{AllocError, Global};
use std::marker::Model;
use undo_region::Region;

/// Room for the folds of 12 bends, each of which moves at most 13 faces.
const TRAIL_ROOM: usize = 156;

/// A search for a plan of least cost. Contracts see the job for which it was opened, the pool of
/// rows, the budget, the outcome, which is None before the run, and the kept steps.
#[derive(Drop)]
pub struct Search {
    pool: RowPool,
    trail: Region<Place>,
    table: SearchTable,
    budget: u32,
    outcome: Option<Outcome>,
    steps: ArrayVec<Step, 12>,
}

impl Model for Search {
    ghost use Rattle.bb_search.specs.Searches.{SearchData, search_data, IsSearch};

    ghost Value = { SearchData };

    ghost view = { λ s. search_data s.table.job s.pool s.budget s.outcome s.steps.items };

    ghost invariant = { λ s.
        IsSearch (search_data s.table.job s.pool s.budget s.outcome s.steps.items) s.trail s.table };
}

/// The worth of the start key: 0 where there is no bend, else the one that is found by settling it.
/// None where all rows are used.
fn start_worth(
    job: &Job,
    pool: &mut RowPool,
    table: &mut SearchTable,
    state: &mut BendState,
    trail: &mut Region<Place>,
) -> Option<Worth>
    requires empty { pool.old ≡ empty_pool pool.old.limit (24 * stage_count job.now) }
    requires known { AreKnown job.now pool.old table.old }
    requires shape { state.old.shape ≡ shape_of job.now }
    requires mask { state.old.mask ≡ start.mask }
    requires room { trail.old ≡ list_with_room [] 156 }
    ensures found { IsFound job.now pool.old pool.new start result }
    ensures job { table.new.job ≡ table.old.job }
    ensures state { state.new ≡ state.old }
    ensures trail { trail.new ≡ trail.old }
    ensures valid { IsJob job.now }
{
    if job.bends() == 0 {
        return Some(Worth::Cost(0));
    }
    settle(job, pool, table, state, trail, &start_key())
}

/// The kept steps where the start key's worth is a cost, else none.
fn steps_of(
    job: &Job,
    pool: &RowPool,
    table: &mut SearchTable,
    state: &mut BendState,
    trail: &mut Region<Place>,
    worth: Option<Worth>,
) -> ArrayVec<Step, 12>
    requires job { IsJob job.now }
    requires table { job.now ≡ table.old.job }
    requires shape { state.old.shape ≡ shape_of job.now }
    requires mask { state.old.mask ≡ start.mask }
    requires found { (before : Pool) × IsFound job.now before pool.now start worth }
    requires room { trail.old ≡ list_with_room [] 156 }
    ensures steps { AreSteps job.now worth result.items }
    ensures table { table.new ≡ table.old }
    ensures trail { trail.new ≡ list_with_room [] 156 }
{
    match worth {
        Some(Worth::Cost(cost)) => {
            let steps = kept_plan(job, pool, table, state, trail, cost);
            trail.rewind(0);
            steps
        }
        _ => ArrayVec::new(),
    }
}

/// What the start key's worth tells.
fn outcome_with(worth: Option<Worth>) -> Outcome
    ensures { result ≡ outcome_with worth }
{
    match worth {
        Some(Worth::Cost(cost)) => Outcome::Best { cost },
        Some(Worth::Blocked) => Outcome::Blocked,
        None => Outcome::Spent,
    }
}

impl Search {
    /// A search for a plan of the job that settles at most so many keys. It takes all memory that
    /// it will use.
    pub fn open(alloc: Global, job: &Job, budget: u32) -> Result<Search, AllocError>
        ensures { IfOk result (λ search. search ≡ opened job.now budget) }
    {
        let rows = budget.min(nodes(job));
        let pool = RowPool::open(alloc, rows, 24 * job.stages())?;
        let trail = Region::open(alloc, TRAIL_ROOM)?;
        let table = SearchTable::open(alloc, job)?;
        Ok(Search {
            pool,
            trail,
            table,
            budget,
            outcome: None,
            steps: ArrayVec::new(),
        })
    }

    /// Settles keys from the start on, and keeps a plan of least cost if there is one. It takes no
    /// memory.
    ///
    /// `Best` comes with a kept plan of that cost, each step with its first legal gauge, and no
    /// plan costs less. `Blocked` comes only where there is no plan. With both the rows are a good
    /// and thrifty certificate, and each row's key is reached. `Spent` comes only where more keys
    /// are reached than the budget allows; then as many have a row. There are never more rows than
    /// the budget allows, nor than keys are reached.
    pub fn run(&mut self, job: &Job) -> Outcome
        requires job { job.now ≡ self.old.job }
        requires fresh { self.old.outcome ≡ None }
        ensures answer { IsAnswer job.now self.new.pool self.new.budget self.new.steps result }
        ensures rows { AreWithinBudget job.now self.new.pool self.new.budget }
        ensures outcome { self.new.outcome ≡ Some result }
        ensures job { self.new.job ≡ self.old.job }
        ensures budget { self.new.budget ≡ self.old.budget }
    {
        let mut state = BendState::start(job);
        let worth = start_worth(
            job,
            &mut self.pool,
            &mut self.table,
            &mut state,
            &mut self.trail,
        );
        let _rows = self.pool.len();
        self.steps = steps_of(
            job,
            &self.pool,
            &mut self.table,
            &mut state,
            &mut self.trail,
            worth,
        );
        let outcome = outcome_with(worth);
        self.outcome = Some(outcome);
        outcome
    }

    /// The certificate of what the run answered: all rows in the order of their keys, their reasons
    /// as notes, the claim and the kept steps, and no more. It is text that is made in pieces, so that
    /// neither its notes nor the text are held whole.
    pub fn write(self, alloc: Global, job: &Job) -> Result<WrittenCert, AllocError>
        requires job { job.now ≡ self.job }
        requires answered { HasAnswer self }
        ensures { IfOk result (IsWritten self) }
    {
        job.recall_valid();
        let (claim, steps) = (claim_of(self.outcome), copy_of(&self.steps));
        let text = CertPieces::open(alloc, job, claim, &steps, self.pool)?;
        Ok(WrittenCert { claim, steps, text })
    }
}

/// What an outcome with a claim claims.
fn claim_of(outcome: Option<Outcome>) -> Worth
    requires answered { (claim : Worth) × (outcome ≡ Some (outcome_of claim)) }
    ensures { outcome ≡ Some (outcome_of result) }
{
    match outcome {
        Some(Outcome::Best { cost }) => Worth::Cost(cost),
        Some(Outcome::Blocked) => Worth::Blocked,
        _ => unreachable!(),
    }
}
