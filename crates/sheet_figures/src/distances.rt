//! How far the bend lines of the blank are from its lower left corner.
ghost use Rattle.std.specs.Prelude.{◌^◌, ◌<◌, ◌≤◌, unsigned_abs, length, All, IfSome};
ghost use Rattle.sheet_figures.specs.Flats.{IsFlatLine, IsNearFlat};

use crate::blank::Flat;
use crate::places::ascending;
use arrayvec::ArrayVec;
use brake_base::Mask;
use sheet_paper::Places;
use unfolder::BendLine;

/// Along which axis lines lie.
#[derive(Clone, Copy, PartialEq, Eq)]
pub(crate) enum Axis {
    X,
    Y,
}

/// How far a line along the axis is from the corner, or None where it lies along the other.
fn place_of(line: &BendLine, axis: Axis) -> Option<i64>
    requires { IsFlatLine line.now }
    ensures { IfSome result (λ place. unsigned_abs place ≤ 2 ^ 40) }
{
    let lies_along_x = line.from.1 == line.to.1;
    match axis {
        Axis::X => {
            if lies_along_x {
                Some(line.from.1)
            } else {
                None
            }
        }
        Axis::Y => {
            if lies_along_x {
                None
            } else {
                Some(line.from.0)
            }
        }
    }
}

/// Whether a line along the axis is so far from the corner.
fn lies_at(line: &BendLine, axis: Axis, at: i64) -> bool
    requires { IsFlatLine line.now }
{
    match place_of(line, axis) {
        Some(place) => place == at,
        None => false,
    }
}

/// How far a line along the axis reaches towards the corner.
fn reach_of(line: &BendLine, axis: Axis) -> i64
    requires { IsFlatLine line.now }
    ensures { unsigned_abs result ≤ 2 ^ 40 }
{
    match axis {
        Axis::X => line.from.0.min(line.to.0),
        Axis::Y => line.from.1.min(line.to.1),
    }
}

/// The size of the blank across the axis.
pub(crate) fn size_of(flat: &Flat, axis: Axis) -> i64
    requires { IsNearFlat flat.now }
    ensures { unsigned_abs result ≤ 2 ^ 40 }
{
    match axis {
        Axis::X => flat.height,
        Axis::Y => flat.width,
    }
}

/// The distance of a line, or 0 where it lies along the other axis.
fn distance_of(line: &BendLine, axis: Axis) -> i64
    requires { IsFlatLine line.now }
    ensures { unsigned_abs result ≤ 2 ^ 40 }
{
    match place_of(line, axis) {
        Some(place) => place,
        None => 0,
    }
}

/// 0, the size, and the distances of all lines along the axis.
fn all_distances(flat: &Flat, axis: Axis) -> Places
    requires { IsNearFlat flat.now }
    ensures near { All (λ place. unsigned_abs place ≤ 2 ^ 40) result.items }
{
    let mut places: Places = ArrayVec::new();
    places.push(0);
    places.push(size_of(flat, axis));
    for line in flat.blank.bends.as_slice() {
        places.push(distance_of(line, axis));
    }
    places
}

/// 0, the size, and the distances of all lines along the axis, in ascending order.
pub(crate) fn distances_of(flat: &Flat, axis: Axis) -> Places
    requires { IsNearFlat flat.now }
    ensures few { length result.items ≤ 16 }
    ensures near { All (λ place. unsigned_abs place ≤ 2 ^ 40) result.items }
{
    ascending(all_distances(flat, axis).as_slice())
}

/// The bends whose lines along the axis are so far from the corner.
pub(crate) fn bends_at(flat: &Flat, axis: Axis, at: i64) -> Mask
    requires { IsNearFlat flat.now }
{
    let mut bends = Mask::empty();
    for (i, line) in flat.blank.bends.as_slice().iter().enumerate() {
        if lies_at(line, axis, at) {
            bends = bends.with(i as u8 + 1);
        }
    }
    bends
}

/// How far towards the corner one of these lines reaches.
pub(crate) fn least_at(flat: &Flat, axis: Axis, at: i64) -> i64
    requires { IsNearFlat flat.now }
    ensures { unsigned_abs result ≤ 2 ^ 40 }
{
    let mut least = size_of(flat, other(axis));
    for line in flat.blank.bends.as_slice() {
        if lies_at(line, axis, at) {
            least = least.min(reach_of(line, axis));
        }
    }
    least
}

/// The other axis.
fn other(axis: Axis) -> Axis {
    match axis {
        Axis::X => Axis::Y,
        Axis::Y => Axis::X,
    }
}

/// How many digits a number has.
pub(crate) fn digits(number: u8) -> i64
    ensures { unsigned_abs result ≤ 2 }
{
    if number < 10 { 1 } else { 2 }
}

/// How many letters the digits of a fraction of a millimetre have, with the point.
fn fraction_letters(rest: u64) -> i64
    ensures { unsigned_abs result ≤ 4 }
{
    if rest == 0 {
        0
    } else if rest % 100 == 0 {
        2
    } else if rest % 10 == 0 {
        3
    } else {
        4
    }
}

/// How many digits a number of whole millimetres has; a job has none of more than 10.
fn whole_letters(size: u64) -> i64
    ensures { unsigned_abs result ≤ 10 }
{
    let mut rest = size;
    let mut letters = 1;
    for _place in 0..9_u8 {
        if rest >= 10 {
            rest /= 10;
            letters += 1;
        }
    }
    letters
}

/// How many letters a length has in millimetres.
fn letters_of(length: i64) -> i64
    ensures { unsigned_abs result ≤ 16 }
{
    let size = length.unsigned_abs();
    let sign = if length < 0 { 1 } else { 0 };
    sign + whole_letters(size / 1000) + fraction_letters(size % 1000)
}

/// How many letters the words for some bends have.
fn bends_letters(bends: &[u8]) -> i64
    requires { length bends.now ≤ 16 }
    ensures { unsigned_abs result ≤ 80 }
{
    if bends.is_empty() {
        return 0;
    }
    let mut letters = if bends.len() == 1 { 3 } else { 4 };
    for bend in bends {
        letters += 2 + digits(*bend);
    }
    letters
}

/// How many tenths of a millimetre of paper a distance and its bends need.
fn room_of(flat: &Flat, axis: Axis, at: i64) -> i64
    requires { IsNearFlat flat.now }
    ensures { unsigned_abs result ≤ 2 ^ 11 }
{
    let bends = bends_at(flat, axis, at).bends();
    16 * letters_of(at) + 12 * bends_letters(bends.as_slice())
}

/// The room that the distances and their bends need, in millimetres of paper.
pub(crate) fn margin(flat: &Flat, axis: Axis) -> i64
    requires { IsNearFlat flat.now }
    ensures { unsigned_abs result ≤ 2 ^ 8 }
{
    let mut most = 0;
    for at in distances_of(flat, axis).as_slice() {
        most = most.max(room_of(flat, axis, *at));
    }
    9 + most / 10
}
