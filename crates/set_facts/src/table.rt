//! The table of what belongs to each set of folded bends.
ghost use Rattle.std.specs.Prelude.{◌≡◌, ◌<◌, ◌≤◌, ◌^◌, IfOk, None, length, slice_index_or};
ghost use Rattle.job_setup.specs.Setup.{bend_count};
ghost use Rattle.set_facts.specs.Facts.{IsFacts};

use crate::facts::SetFacts;
use brake_base::Mask;
use job_setup::Job;
use std::alloc::{AllocError, Global};
use std::marker::Model;

/// What belongs to each set of a job's bends, found when it is first asked for. Contracts see the
/// table as its job.
#[derive(Drop)]
pub struct FactTable {
    job: Job,
    facts: Vec<Option<SetFacts>>,
}

impl Model for FactTable {
    ghost use Rattle.job_setup.specs.Setup.{JobData};
    ghost use Rattle.set_facts.specs.Table.{IsFactTable};

    ghost Value = { JobData };

    ghost view = { λ t. t.job };

    ghost invariant = { λ t. IsFactTable t.job t.facts.items };
}

impl FactTable {
    /// The table of a job, in which nothing has been found yet. It takes all memory that the table
    /// will use.
    pub fn open(alloc: Global, job: &Job) -> Result<FactTable, AllocError>
        ensures { IfOk result (λ table. table ≡ job.now) }
    {
        let facts = vec![in alloc; None; set_count(job)]?;
        Ok(FactTable {
            job: job.copy(),
            facts,
        })
    }

    /// What belongs to a set of the job's bends.
    pub fn facts(&mut self, mask: Mask) -> SetFacts
        requires { mask.0 < 2 ^ bend_count self.old }
        ensures facts { IsFacts self.old mask result }
        ensures table { self.new ≡ self.old }
    {
        let place = usize::from(mask.0);
        match known_at(&self.facts, place) {
            Some(facts) => facts,
            None => {
                let facts = SetFacts::of(&self.job, mask);
                let kept = &facts;
                self.facts[place] = Some(*kept);
                facts
            }
        }
    }
}

/// The number of the sets of a job's bends.
pub(crate) fn set_count(job: &Job) -> usize
    ensures value { result ≡ 2 ^ bend_count job.now }
    ensures few { result ≤ 4096 }
{
    1 << job.bends()
}

/// What stands at a place.
fn known_at(facts: &[Option<SetFacts>], place: usize) -> Option<SetFacts>
    requires { place < length facts.now }
    ensures { result ≡ slice_index_or facts.now place None }
{
    facts[place]
}
