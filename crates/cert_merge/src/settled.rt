//! The settling of all keys of a range of masks.
ghost use Rattle.std.specs.Prelude.{◌≡◌, ◌+◌, ◌^◌, ◌<◌, ◌≤◌, IfOk};
ghost use Rattle.brake_base.specs.declared.stroke.Key.{Key};
ghost use Rattle.job_setup.specs.Setup.{bend_count};
ghost use Rattle.plan_cert.specs.WellFormed.{AreRowsOf};
ghost use Rattle.cert_merge.specs.Settling.{AreSettled, HasSets, key_of};

use crate::settled_sets::{SettledSets, settle_set};
use brake_base::{Key, Mask, Turn};
use job_setup::Job;
use plan_cert::RowHead;
use set_facts::LaneFacts;
use std::alloc::{AllocError, Global};
use stroke_table::StrokeTable;

/// Settles the sets of a range, from the highest mask downwards.
pub(crate) fn settle_sets(
    alloc: Global,
    job: &Job,
    facts: &LaneFacts,
    base: &[RowHead],
    low: u16,
    high: u16,
) -> Result<SettledSets, AllocError>
    requires facts { job.now ≡ facts.now }
    requires base { AreRowsOf job.now base.now }
    requires range { low ≤ high }
    requires open { high + 1 < 2 ^ bend_count job.now }
    ensures range { IfOk result (λ settled. HasSets low high settled) }
    ensures settled { IfOk result (λ settled. AreSettled job.now base.now settled) }
{
    job.recall_valid();
    let mut strokes = StrokeTable::open(alloc, job)?;
    let mut settled = SettledSets {
        high,
        sets: Vec::new(alloc),
    };
    for below in 0..high - low + 1 {
        let mask = Mask(high - below);
        let set = settle_set(job, &mut strokes, facts, base, &settled, mask);
        settled.sets.push(set)?;
    }
    Ok(settled)
}

/// The key of a number: each mask has 144, by the attitude and then by the stage.
pub(crate) fn key_of(place: usize) -> Key
    requires { place < 2 ^ 20 }
    ensures { result ≡ key_of place }
{
    Key {
        mask: Mask((place / 144) as u16),
        attitude: Turn::from_number((place / 6 % 24) as u8),
        stage: (place % 6) as u8,
    }
}
