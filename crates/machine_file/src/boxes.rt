//! The ranges and boxes of a machine's top table.
ghost use Rattle.std.specs.Prelude.{◌≡◌, ◌≤◌, ◌↔◌, IsTrue, length, map};
ghost use Rattle.toml.specs.View.{view};
ghost use Rattle.toml_fields.specs.Results.{Gives, each_from};
ghost use Rattle.machine_file.specs.Machine.{fixtures_data, IsBedRange};
ghost use Rattle.machine_file.specs.MachineFile.{bed_range_of, fixed_of, frame_of, fixed_between, fixtures_of};

use crate::bounds::{COORDINATE_LIMIT, MOST_BOXES, MOST_FRAMES};
use crate::fault::MachineFault;
use crate::machine::{Fixed, Heights, is_fixed};
use arrayvec::ArrayVec;
use brake_base::Rect;
use toml::Value;
use toml_fields::{integers_of, is_range};

/// A key of the table that is needed is missing or bad.
pub fn bad_field(table: u8, key: u8) -> MachineFault
    ensures { result ≡ MachineFault.BadField table key }
{
    MachineFault::BadField { table, key }
}

/// A range or box of the top table is out of order or range.
fn bad_box() -> MachineFault
    ensures { result ≡ MachineFault.BadBox 0 }
{
    MachineFault::BadBox { table: 0 }
}

/// Whether the range along the bed isn't empty, and its ends lie between -20,000,000 and
/// 20,000,000 micrometres.
pub fn is_bed_range(range: &(i64, i64)) -> bool
    ensures { IsTrue result ↔ IsBedRange range.now }
{
    is_range(range.0, range.1, -COORDINATE_LIMIT, COORDINATE_LIMIT)
}

/// The range of two integers along the bed.
#[tactic(auto, using(toml_fields::proofs::Sizes::sizes))]
fn bed_range_of(ends: [i64; 2]) -> Option<(i64, i64)>
    ensures { result ≡ bed_range_of ends }
{
    let [x0, x1] = ends;
    if is_range(x0, x1, -COORDINATE_LIMIT, COORDINATE_LIMIT) {
        Some((x0, x1))
    } else {
        None
    }
}

/// What is fixed on a machine: its bed's range, its side frames' ranges, and the boxes above and
/// below the bed.
#[derive(Drop)]
pub struct Fixtures {
    pub bed: (i64, i64),
    pub frames: ArrayVec<(i64, i64), MOST_FRAMES>,
    pub upper: ArrayVec<Fixed, MOST_BOXES>,
    pub lower: ArrayVec<Fixed, MOST_BOXES>,
}

/// The box of an array of six integers.
#[tactic(auto, using(toml_fields::proofs::Sizes::sizes))]
fn fixed_of(item: &Value) -> Option<Fixed>
    ensures { result ≡ fixed_of (view item.now) }
{
    let [x0, x1, y0, y1, z0, z1] = integers_of::<6>(item)?;
    let rect = Rect { y0, y1, z0, z1 };
    Some(Fixed { x0, x1, rect })
}

/// An item of `frames`.
fn frame_of(item: &Value) -> Result<(i64, i64), MachineFault>
    ensures { result ≡ frame_of 0 (view item.now) }
{
    match integers_of::<2>(item) {
        Some(ends) => bed_range_of(ends).ok_or(bad_box()),
        None => Err(bad_box()),
    }
}

/// An item of `upper` or `lower`, between two heights.
#[tactic(auto, using(toml_fields::proofs::Sizes::sizes))]
fn fixed_between(heights: &Heights, item: &Value) -> Result<Fixed, MachineFault>
    ensures { result ≡ fixed_between heights.now.lowest heights.now.highest 0 (view item.now) }
{
    match fixed_of(item) {
        Some(fixed) if is_fixed(heights, &fixed) => Ok(fixed),
        _ => Err(bad_box()),
    }
}

/// The ranges of the items of `frames`.
fn frames_of(items: &[Value]) -> Result<ArrayVec<(i64, i64), MOST_FRAMES>, MachineFault>
    requires { length items.now ≤ MOST_FRAMES }
    ensures { Gives (λ frames. frames.items) result (each_from frame_of 0 (map view items.now)) }
{
    let mut frames = ArrayVec::new();
    for item in items {
        let frame = frame_of(item)?;
        frames.push(frame);
    }
    Ok(frames)
}

/// The boxes of the items of `upper` or `lower`, between two heights.
fn boxes_between(
    heights: &Heights,
    items: &[Value],
) -> Result<ArrayVec<Fixed, MOST_BOXES>, MachineFault>
    requires { length items.now ≤ MOST_BOXES }
    ensures { Gives (λ boxes. boxes.items) result
        (each_from (fixed_between heights.now.lowest heights.now.highest) 0
        (map view items.now)) }
{
    let mut boxes = ArrayVec::new();
    for item in items {
        let fixed = fixed_between(heights, item)?;
        boxes.push(fixed);
    }
    Ok(boxes)
}

/// What is fixed on the machine: the upper boxes lie above the bed's height, the lower ones below.
#[tactic(auto, using(toml_fields::proofs::Sizes::sizes), unfolding(crate::specs::MachineFile::fixtures_of))]
pub fn fixtures_of(
    ends: [i64; 2],
    frames: &[Value],
    upper: &[Value],
    lower: &[Value],
) -> Result<Fixtures, MachineFault>
    requires frames { length frames.now ≤ MOST_FRAMES }
    requires upper { length upper.now ≤ MOST_BOXES }
    requires lower { length lower.now ≤ MOST_BOXES }
    ensures { Gives fixtures_data result
        (fixtures_of ends (map view frames.now) (map view upper.now) (map view lower.now)) }
{
    let above = Heights {
        lowest: 0,
        highest: COORDINATE_LIMIT,
    };
    let below = Heights {
        lowest: -COORDINATE_LIMIT,
        highest: 0,
    };
    let bed = bed_range_of(ends).ok_or(bad_box())?;
    let frames = frames_of(frames)?;
    let upper = boxes_between(&above, upper)?;
    let lower = boxes_between(&below, lower)?;
    Ok(Fixtures {
        bed,
        frames,
        upper,
        lower,
    })
}
