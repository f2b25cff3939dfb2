//! The backgauge's table and the costs' table.
ghost use Rattle.std.specs.Prelude.{◌≡◌};
ghost use Rattle.toml.specs.View.{table_view};
ghost use Rattle.machine_file.specs.MachineFile.{length_at, gauge_of, cost_at, costs_of};

use crate::bounds::{GREATEST_COST, GREATEST_LENGTH, LEAST_FINGER};
use crate::boxes::bad_field;
use crate::fault::MachineFault;
use crate::machine::{Costs, GaugeRule};
use toml::Table;
use toml_fields::{has_unknown_key, integer_at};

/// The length of the backgauge at a key, at least `low`, or the refusal of the key's number.
#[tactic(auto, using(toml_fields::proofs::Sizes::sizes))]
fn length_at(table: &Table, key: &str, low: i64, number: u8) -> Result<i64, MachineFault>
    ensures { result ≡ length_at low key.now number (table_view table.now) }
{
    match integer_at(table, key, low, GREATEST_LENGTH) {
        Some(length) => Ok(length),
        None => Err(bad_field(1, number)),
    }
}

/// The backgauge, of table 1.
#[tactic(auto, using(toml_fields::proofs::Sizes::sizes), unfolding(crate::specs::MachineFile::gauge_of))]
pub fn gauge_of(table: &Table) -> Result<GaugeRule, MachineFault>
    ensures { result ≡ gauge_of (table_view table.now) }
{
    let near = length_at(table, "near", 0, 9)?;
    let far = length_at(table, "far", 0, 10)?;
    let inset = length_at(table, "inset", 0, 11)?;
    let finger = length_at(table, "finger", LEAST_FINGER, 12)?;
    let gap = length_at(table, "gap", 0, 13)?;
    let depth = length_at(table, "depth", LEAST_FINGER, 14)?;
    let above = length_at(table, "above", 0, 15)?;
    let below = length_at(table, "below", 0, 16)?;
    let known = [
        "near", "far", "inset", "finger", "gap", "depth", "above", "below",
    ];
    if has_unknown_key(table, &known) {
        return Err(MachineFault::UnknownKey { table: 1 });
    }
    Ok(GaugeRule {
        near,
        far,
        inset,
        finger,
        gap,
        depth,
        above,
        below,
    })
}

/// The cost at a key, in tenths of a second, or the refusal of the key's number.
fn cost_at(table: &Table, key: &str, number: u8) -> Result<u64, MachineFault>
    ensures { result ≡ cost_at key.now number (table_view table.now) }
{
    match integer_at(table, key, 0, GREATEST_COST as i64) {
        Some(cost) => Ok(cost.unsigned_abs()),
        None => Err(bad_field(2, number)),
    }
}

/// The costs, of table 2.
#[tactic(auto, using(toml_fields::proofs::Sizes::sizes), unfolding(crate::specs::MachineFile::costs_of))]
pub fn costs_of(table: &Table) -> Result<Costs, MachineFault>
    ensures { result ≡ costs_of (table_view table.now) }
{
    let stroke = cost_at(table, "stroke", 17)?;
    let quarter = cost_at(table, "quarter", 18)?;
    let half = cost_at(table, "half", 19)?;
    let flip = cost_at(table, "flip", 20)?;
    let roll = cost_at(table, "roll", 21)?;
    let stage = cost_at(table, "stage", 22)?;
    if has_unknown_key(
        table,
        &["stroke", "quarter", "half", "flip", "roll", "stage"],
    ) {
        return Err(MachineFault::UnknownKey { table: 2 });
    }
    Ok(Costs {
        stroke,
        quarter,
        half,
        flip,
        roll,
        stage,
    })
}
