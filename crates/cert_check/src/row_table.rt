//! The rows of a certificate, each found by its key in constant time.
ghost use Rattle.std.specs.Prelude.{◌≡◌, ◌<◌, IfOk, Some, length, replicate, slice_get};
ghost use Rattle.job_setup.specs.ValidJob.{IsJob};
ghost use Rattle.handling_cost.specs.StepCost.{IsKeyOf};
ghost use Rattle.plan_lines.specs.LinesFit.{IsRow};
ghost use Rattle.plan_cert.specs.KeyPlaces.{key_place, key_count};
ghost use Rattle.plan_cert.specs.WellFormed.{AreRowsOf};
ghost use Rattle.cert_check.specs.RowTable.{IsIndexed, IsRowTable, IsWorthAt};

use brake_base::{Key, Worth};
use job_setup::Job;
use plan_cert::RowHead;
use std::alloc::{AllocError, Global};
use std::marker::Model;

/// The rows of a certificate of a job. Contracts see the job and the rows.
#[derive(Drop)]
pub struct RowTable {
    job: Job,
    rows: Vec<RowHead>,
    /// At the number of a key the number of its row and 1; 0 where it has none.
    places: Vec<u32>,
}

impl Model for RowTable {
    ghost use Rattle.cert_check.specs.RowTable.{RowsOf, IsRowTable};

    ghost Value = { RowsOf };

    ghost view = { λ t. record { job = t.job; rows = t.rows.items } };

    ghost invariant = { λ t. IsRowTable t.job t.rows.items t.places.items };
}

impl RowTable {
    /// A table of rows that stand in strict order of their keys.
    pub fn open(alloc: Global, job: &Job, rows: Vec<RowHead>) -> Result<RowTable, AllocError>
        requires rows { AreRowsOf job.now rows.items }
        ensures { IfOk result (λ table. table ≡ record { job = job.now; rows = rows.items }) }
    {
        let job = job.copy();
        let mut places = no_places(alloc, key_count(&job))?;
        enter(&job, rows.as_slice(), places.as_mut_slice());
        Ok(RowTable { job, rows, places })
    }

    /// The number of rows.
    pub fn len(&self) -> u32
        ensures { result ≡ length self.now.rows }
    {
        self.rows.len() as u32
    }

    /// The row of a number.
    pub fn head(&self, row: u32) -> RowHead
        requires { row < length self.now.rows }
        ensures row { slice_get self.now.rows row ≡ Some result }
        ensures valid { IsRow self.now.job result }
    {
        self.rows[row as usize]
    }

    /// The worth of the row with the key. None exactly where no row has it.
    pub fn worth(&self, key: &Key) -> Option<Worth>
        requires { IsKeyOf self.now.job key.now }
        ensures { IsWorthAt self.now.rows key.now result }
    {
        let place = self.places[key_place(key) as usize];
        if place == 0 {
            None
        } else {
            Some(self.rows[place as usize - 1].worth)
        }
    }
}

/// The number of a key.
fn key_place(key: &Key) -> u32
    ensures { result ≡ key_place key.now }
{
    let (mask, attitude, stage) = (key.mask.0, key.attitude.number(), key.stage);
    (u32::from(mask) * 24 + u32::from(attitude)) * 6 + u32::from(stage)
}

/// The number of the keys of a job with six stages; one with fewer stages has fewer.
pub fn key_count(job: &Job) -> usize
    ensures { result ≡ key_count job.now }
{
    144 << job.bends()
}

/// So many keys that have no row.
fn no_places(alloc: Global, count: usize) -> Result<Vec<u32>, AllocError>
    ensures { IfOk result (λ places. places.items ≡ replicate count 0) }
{
    vec![in alloc; 0; count]
}

/// Enters the rows at the numbers of their keys.
fn enter(job: &Job, rows: &[RowHead], places: &mut [u32])
    requires valid { IsJob job.now }
    requires rows { AreRowsOf job.now rows.now }
    requires count { length places.old ≡ key_count job.now }
    requires places { places.old ≡ replicate (length places.old) 0 }
    ensures count { length places.new ≡ length places.old }
    ensures indexed { IsIndexed rows.now (length rows.now) places.new }
{
    for (row, head) in rows.iter().enumerate() {
        places[key_place(&head.key) as usize] = row as u32 + 1;
    }
}
