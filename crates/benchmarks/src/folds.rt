//! How long the places and the boxes of a part take.
ghost use Rattle.std.specs.Prelude.{pos, ◌≤ℤ◌};
ghost use Rattle.part_file.specs.Part.{IsPart, part_data, half_thickness};

use crate::timing::nanoseconds;
use anyhow::anyhow;
use brake_base::{Mask, V3};
use fold_boxes::{Shape, boxes, place};
use part_file::{Part, read_part};
use std::time::Instant;
use unfolder::unfold;

/// The sets of bends of a part with 12 bends.
const MASKS: u16 = 4_096;

/// How often all sets of bends are gone through.
const ROUNDS: u32 = 24;

/// The half deduction, in micrometres.
const HALF_DEDUCTION: i64 = 1_919;

/// A pan with two rims, one within the other, on each of its four walls: 13 faces.
const PAN: &str = "
material = 'DC01'
thickness = 2000
radius = 2000
[[face]]
name = 'base'
width = 400000
length = 300000
[[face]]
name = 'north_wall'
on = 'base'
side = 'N'
at = 5000
width = 390000
length = 60000
dir = 'up'
[[face]]
name = 'south_wall'
on = 'base'
side = 'S'
at = 5000
width = 390000
length = 60000
dir = 'up'
[[face]]
name = 'east_wall'
on = 'base'
side = 'E'
at = 5000
width = 290000
length = 60000
dir = 'up'
[[face]]
name = 'west_wall'
on = 'base'
side = 'W'
at = 5000
width = 290000
length = 60000
dir = 'up'
[[face]]
name = 'north_rim'
on = 'north_wall'
side = 'N'
at = 35000
width = 320000
length = 30000
dir = 'up'
[[face]]
name = 'south_rim'
on = 'south_wall'
side = 'N'
at = 35000
width = 320000
length = 30000
dir = 'up'
[[face]]
name = 'east_rim'
on = 'east_wall'
side = 'N'
at = 35000
width = 220000
length = 30000
dir = 'up'
[[face]]
name = 'west_rim'
on = 'west_wall'
side = 'N'
at = 35000
width = 220000
length = 30000
dir = 'up'
[[face]]
name = 'north_lip'
on = 'north_rim'
side = 'N'
at = 0
width = 320000
length = 15000
dir = 'up'
[[face]]
name = 'south_lip'
on = 'south_rim'
side = 'N'
at = 0
width = 320000
length = 15000
dir = 'up'
[[face]]
name = 'east_lip'
on = 'east_rim'
side = 'N'
at = 0
width = 220000
length = 15000
dir = 'up'
[[face]]
name = 'west_lip'
on = 'west_rim'
side = 'N'
at = 0
width = 220000
length = 15000
dir = 'up'
";

/// Times the places and the boxes of the pan under every set of bends.
pub fn time_folds(rt: &HostRuntime) -> anyhow::Result<()> {
    let part = read_part(rt.alloc(), PAN.as_bytes())?;
    match shape_of(&part) {
        Some(shape) => time_shape(rt, &shape),
        None => Err(anyhow!("the pan has no blank")),
    }
}

/// The shape of a part, and none where it has no blank or is too thick for the half deduction.
fn shape_of(part: &Part) -> Option<Shape>
    requires { IsPart (part_data part.now) }
{
    let q = HALF_DEDUCTION.max(part.thickness / 2);
    match unfold(part, q) {
        Ok(_) => Some(Shape::new(part, q)),
        Err(_) => None,
    }
}

/// Times the places and the boxes of a shape under every set of bends.
fn time_shape(rt: &HostRuntime, shape: &Shape) -> anyhow::Result<()> {
    let start = Instant::now(rt)?;
    let places = sum_of_all_places(shape);
    let placed = Instant::now(rt)?;
    let boxes = sum_of_all_boxes(shape);
    let boxed = Instant::now(rt)?;
    let calls = ROUNDS * u32::from(MASKS);
    let place_time = nanoseconds(start, placed, calls);
    let box_time = nanoseconds(placed, boxed, calls);
    eprintln!(rt;
        "fold of {} faces: places {place_time} ns, boxes {box_time} ns a set of bends (sums {places}, {boxes})",
        shape.faces()
    )?;
    Ok(())
}

/// The set of bends at this call, each set once a round.
fn mask_of_call(call: u32) -> Mask {
    Mask((call % u32::from(MASKS)) as u16)
}

/// The sum over all rounds and sets of bends of where the faces lie.
fn sum_of_all_places(shape: &Shape) -> i64 {
    let mut sum = 0i64;
    for call in 0..ROUNDS * u32::from(MASKS) {
        sum = sum.wrapping_add(sum_of_places(shape, mask_of_call(call)));
    }
    sum
}

/// The sum over all rounds and sets of bends of the corners of the boxes.
fn sum_of_all_boxes(shape: &Shape) -> i64 {
    let mut sum = 0i64;
    for call in 0..ROUNDS * u32::from(MASKS) {
        sum = sum.wrapping_add(sum_of_boxes(shape, mask_of_call(call)));
    }
    sum
}

/// The sum of the coordinates at which the faces lie.
fn sum_of_places(shape: &Shape, mask: Mask) -> i64 {
    let places = place(shape, mask);
    let mut sum = 0i64;
    for place in places.as_slice() {
        sum = sum.wrapping_add(sum_of_point(&place.at));
    }
    sum
}

/// The sum of the coordinates of the corners of the boxes.
fn sum_of_boxes(shape: &Shape, mask: Mask) -> i64 {
    let boxes = boxes(shape, mask);
    let mut sum = 0i64;
    for part_box in boxes.as_slice() {
        let low = sum_of_point(&part_box.body.lo);
        let high = sum_of_point(&part_box.body.hi);
        sum = sum.wrapping_add(low).wrapping_add(high);
    }
    sum
}

/// The sum of a point's coordinates.
fn sum_of_point(point: &V3) -> i64 {
    point.x.wrapping_add(point.y).wrapping_add(point.z)
}
