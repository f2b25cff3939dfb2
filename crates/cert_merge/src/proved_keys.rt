//! What rows prove of a key.
ghost use Rattle.std.specs.Prelude.{◌≡◌, AllPairs, map};
ghost use Rattle.brake_base.specs.Keys.{KeyIsBefore};
ghost use Rattle.brake_base.specs.Worths.{greater};
ghost use Rattle.handling_cost.specs.StepCost.{IsKeyOf};
ghost use Rattle.cert_lines.specs.Lines.{IsWorth};
ghost use Rattle.plan_cert.specs.WellFormed.{AreRowsOf};
ghost use Rattle.cert_merge.specs.MergeSteps.{key_before};
ghost use Rattle.cert_merge.specs.TableChecks.{IsWorthIn, IsWorthAt, IsPlaceOf, proved_by};

use brake_base::{Key, Worth};
use handling_cost::bound;
use job_setup::Job;
use plan_cert::RowHead;

/// What is proved of a key: the greater of its bound and of the worth of its row.
pub(crate) fn proved(job: &Job, rows: &[RowHead], key: &Key) -> Worth
    requires rows { AreRowsOf job.now rows.now }
    requires key { IsKeyOf job.now key.now }
    ensures value { result ≡ proved_by job.now rows.now key.now }
    ensures small { IsWorth result }
{
    job.recall_valid();
    let bound = bound(job, *key);
    match worth_of(rows, key) {
        Some(worth) => greater(Worth::Cost(bound), worth),
        None => Worth::Cost(bound),
    }
}

/// The worth of the row of a key. None where there is none.
pub(crate) fn worth_of(rows: &[RowHead], key: &Key) -> Option<Worth>
    requires { AllPairs KeyIsBefore (map (λ row. row.key) rows.now) }
    ensures { IsWorthIn rows.now key.now result }
{
    let place = place_of(rows, key);
    if place < rows.len() {
        worth_at(&rows[place], key)
    } else {
        None
    }
}

/// The worth of the row, where it is that of the key.
fn worth_at(row: &RowHead, key: &Key) -> Option<Worth>
    ensures { IsWorthAt row.now key.now result }
{
    if row.key == *key {
        Some(row.worth)
    } else {
        None
    }
}

/// How many rows stand before a key.
fn place_of(rows: &[RowHead], key: &Key) -> usize
    requires { AllPairs KeyIsBefore (map (λ row. row.key) rows.now) }
    ensures { IsPlaceOf rows.now key.now result }
{
    rows.partition_point(|row| is_earlier(row, key))
}

/// Whether the row's key stands before the key.
fn is_earlier(row: &RowHead, key: &Key) -> bool
    ensures { result ≡ key_before row.now.key key.now }
{
    row.key.is_before(key)
}

/// The greater of two worths.
pub(crate) fn greater(first: Worth, second: Worth) -> Worth
    ensures { result ≡ greater first second }
{
    if first.is_at_most(second) {
        second
    } else {
        first
    }
}
