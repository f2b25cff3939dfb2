//! How long the calls of a pool take over the keys of the greatest job, 12 bends on 6 stages.
ghost use Rattle.std.specs.Prelude.{◌≡◌, ◌<◌, length};

use crate::timing::nanoseconds;
use brake_base::{Half, Key, Mask, Reason, Turn};
use row_pool::{MOST_ACTIONS, MOST_ROWS, RowPool};
use std::alloc::{AllocError, Global};
use std::time::Instant;

/// The keys of the greatest job that aren't the full mask: 4,094 masks, 24 attitudes, 6 stages.
const KEYS: u32 = 589_536;

/// How far apart two keys lie that follow each other. It has no factor in common with their number.
const STEP: u64 = 6_911;

/// How many keys are looked up.
const LOOKUPS: u32 = 1_000_000;

/// Of how many rows the common reasons are set.
const REFUSED_ROWS: u32 = 1_000;

/// Times a pool of few rows, one of all rows, and the common reasons of few rows.
pub fn time_pools(rt: &HostRuntime) -> anyhow::Result<()> {
    time_rows(rt, 1_000)?;
    time_rows(rt, KEYS)?;
    time_reasons(rt)
}

/// Opens the greatest pool, settles the first keys, and looks keys up.
fn time_rows(rt: &HostRuntime, count: u32) -> anyhow::Result<()> {
    let keys = scattered_keys(rt.alloc(), count)?;
    let looked_for = scattered_keys(rt.alloc(), LOOKUPS)?;
    let start = Instant::now(rt)?;
    let mut pool = RowPool::open(rt.alloc(), MOST_ROWS, MOST_ACTIONS)?;
    let opened = Instant::now(rt)?;
    settle_all(&mut pool, &keys);
    let settled = Instant::now(rt)?;
    let found = found(&pool, &looked_for);
    let looked_up = Instant::now(rt)?;
    let open = nanoseconds(start, opened, 1);
    let settle = nanoseconds(opened, settled, count);
    let find = nanoseconds(settled, looked_up, LOOKUPS);
    eprintln!(rt;
        "pool of {count} rows: open {open} ns, find and add {settle} ns a key, find {find} ns a key ({found} found)"
    )?;
    Ok(())
}

/// Sets the common reasons of the first rows of the greatest pool.
fn time_reasons(rt: &HostRuntime) -> anyhow::Result<()> {
    let keys = scattered_keys(rt.alloc(), REFUSED_ROWS)?;
    let mut pool = RowPool::open(rt.alloc(), MOST_ROWS, MOST_ACTIONS)?;
    settle_all(&mut pool, &keys);
    let start = Instant::now(rt)?;
    refuse_all(&mut pool);
    let refused = Instant::now(rt)?;
    let set_common = nanoseconds(start, refused, REFUSED_ROWS * u32::from(MOST_ACTIONS));
    eprintln!(rt; "pool of {} rows: set_common {set_common} ns", pool.len())?;
    Ok(())
}

/// The key that comes at this place when the keys are scattered.
fn scattered_key(place: u32) -> Key {
    let number = u64::from(place) * STEP % u64::from(KEYS);
    Key {
        mask: Mask((number / 144) as u16),
        attitude: Turn::from_number((number / 6 % 24) as u8),
        stage: (number % 6) as u8,
    }
}

/// The first keys in scattered order, over and over.
fn scattered_keys(alloc: Global, count: u32) -> Result<Vec<Key>, AllocError> {
    let mut keys = Vec::with_capacity(alloc, count as usize)?;
    for place in 0..count {
        keys.push(scattered_key(place))?;
    }
    Ok(keys)
}

/// Looks a key up, and adds it where no row has it.
fn settle(pool: &mut RowPool, key: &Key)
    ensures { pool.new.actions ≡ pool.old.actions }
{
    if pool.find(*key).is_none() {
        let _row = pool.add(*key);
    }
}

/// Looks each key up, and adds it where no row has it.
fn settle_all(pool: &mut RowPool, keys: &[Key])
    ensures { pool.new.actions ≡ pool.old.actions }
{
    for key in keys {
        settle(pool, key);
    }
}

/// How many of the keys a row has.
fn found(pool: &RowPool, keys: &[Key]) -> usize {
    keys.iter().filter(|key| pool.find(**key).is_some()).count()
}

/// Sets the common reasons of a row's set of folded bends, one for each action.
#[tactic(auto, using(row_pool::proofs::PoolLemmas::pool_lemmas))]
fn refuse(pool: &mut RowPool, row: u32)
    requires row { row < length pool.old.rows }
    requires actions { pool.old.actions ≡ MOST_ACTIONS }
    ensures rows { length pool.new.rows ≡ length pool.old.rows }
    ensures actions { pool.new.actions ≡ pool.old.actions }
{
    let mask = pool.key(row).mask;
    for action in 0..MOST_ACTIONS {
        pool.set_common(mask, action, Reason::Rest(Half::Back));
    }
}

/// Sets the common reasons of all rows.
fn refuse_all(pool: &mut RowPool)
    requires { pool.old.actions ≡ MOST_ACTIONS }
{
    for row in 0..pool.len() {
        refuse(pool, row);
    }
}
