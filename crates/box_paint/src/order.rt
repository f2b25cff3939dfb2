//! The order of painting. The eye looks from the direction (12, -16, 15): from the right end, the
//! front and above.

ghost use Rattle.std.specs.Prelude.{◌≡◌, ◌↔◌, ◌⊎◌, ℕ, ◌^◌, ◌<◌, ◌≤◌, pos, ◌<ℤ◌, length, slice_index_or, All, true, false, IsTrue, IfSome, IfNone};
ghost use Rattle.brake_base.specs.declared.space.Box3.{Box3};
ghost use Rattle.brake_base.specs.Boxes.{IsBoxWithin, ShareInterior};
ghost use Rattle.box_paint.specs.Painting.{ahead, shadow, MustPrecede, IsFree, IsNext, IsOrder, IsUnmarked, box_at, HidesNone};

use arrayvec::ArrayVec;
use brake_base::{Box3, V3, overlap};

/// The numbers of the boxes in the order in which they are painted.
pub type Order = ArrayVec<u8, 25>;

/// How far the first box lies on the far side of a plane across an axis that has the second on its
/// near side; below 0 where no such plane is.
fn ahead(a: &Box3, b: &Box3) -> i64
    requires a { IsBoxWithin (2 ^ 40) a.now }
    requires b { IsBoxWithin (2 ^ 40) b.now }
    ensures { result ≡ ahead a.now b.now }
{
    (b.lo.x - a.hi.x).max(a.lo.y - b.hi.y).max(b.lo.z - a.hi.z)
}

/// The shadow of a box along the lines of sight: the ranges over it of 15y + 16z, 4z - 5x and
/// 4x + 3y.
fn shadow(b: &Box3) -> Box3
    requires { IsBoxWithin (2 ^ 40) b.now }
    ensures { result ≡ shadow b.now }
{
    let Box3 { lo, hi } = *b;
    Box3 {
        lo: V3 {
            x: 15 * lo.y + 16 * lo.z,
            y: 4 * lo.z - 5 * hi.x,
            z: 4 * lo.x + 3 * lo.y,
        },
        hi: V3 {
            x: 15 * hi.y + 16 * hi.z,
            y: 4 * hi.z - 5 * lo.x,
            z: 4 * hi.x + 3 * hi.y,
        },
    }
}

/// Whether some line of sight may meet the insides of both boxes.
fn shadows_meet(a: &Box3, b: &Box3) -> bool
    requires a { IsBoxWithin (2 ^ 40) a.now }
    requires b { IsBoxWithin (2 ^ 40) b.now }
    ensures { IsTrue result ↔ ShareInterior (shadow a.now) (shadow b.now) }
{
    overlap(&shadow(a), &shadow(b))
}

/// Whether the first box is further ahead than the second, which isn't ahead of it at all.
fn is_further(a: &Box3, b: &Box3) -> bool
    requires a { IsBoxWithin (2 ^ 40) a.now }
    requires b { IsBoxWithin (2 ^ 40) b.now }
    ensures { IsTrue result ↔ ((ahead b.now a.now <ℤ ahead a.now b.now)
        × (ahead b.now a.now <ℤ pos 0)) }
{
    let back = ahead(b, a);
    let front = ahead(a, b);
    back < front.min(0)
}

/// Whether the first box must be painted before the second, which may hide it.
pub fn must_precede(a: &Box3, b: &Box3) -> bool
    requires a { IsBoxWithin (2 ^ 40) a.now }
    requires b { IsBoxWithin (2 ^ 40) b.now }
    ensures { IsTrue result ↔ MustPrecede a.now b.now }
{
    is_further(a, b) && shadows_meet(a, b)
}

/// Whether the first box isn't taken and must be painted before the second.
fn is_awaited(boxes: &[Box3], taken: &[bool; 25], first: usize, second: usize) -> bool
    requires few { length boxes.now ≤ 25 }
    requires near { All (IsBoxWithin (2 ^ 40)) boxes.now }
    requires first { first < length boxes.now }
    requires second { second < length boxes.now }
    ensures { (d : Box3) → IsTrue result ↔ ((slice_index_or taken.now first true ≡ false)
        × MustPrecede (box_at boxes.now first d) (box_at boxes.now second d)) }
{
    !taken[first] && must_precede(&boxes[first], &boxes[second])
}

/// Whether no box that isn't taken must be painted before the one of the number.
fn is_free(boxes: &[Box3], taken: &[bool; 25], number: usize) -> bool
    requires few { length boxes.now ≤ 25 }
    requires near { All (IsBoxWithin (2 ^ 40)) boxes.now }
    requires number { number < length boxes.now }
    ensures { IsTrue result ↔ IsFree boxes.now (IsUnmarked boxes.now taken.now) number }
{
    for i in 0..boxes.len() {
        if is_awaited(boxes, taken, i, number) {
            return false;
        }
    }
    true
}

/// Whether the box isn't taken and is free.
fn is_ready(boxes: &[Box3], taken: &[bool; 25], number: usize) -> bool
    requires few { length boxes.now ≤ 25 }
    requires near { All (IsBoxWithin (2 ^ 40)) boxes.now }
    requires number { number < length boxes.now }
    ensures { IsTrue result ↔ (IsUnmarked boxes.now taken.now number
        × IsFree boxes.now (IsUnmarked boxes.now taken.now) number) }
{
    !taken[number] && is_free(boxes, taken, number)
}

/// The number of the first box that isn't taken and is free.
fn first_free(boxes: &[Box3], taken: &[bool; 25]) -> Option<usize>
    requires few { length boxes.now ≤ 25 }
    requires near { All (IsBoxWithin (2 ^ 40)) boxes.now }
    ensures left { IfSome result (λ i. IsUnmarked boxes.now taken.now i) }
    ensures free { IfSome result (λ i. IsFree boxes.now (IsUnmarked boxes.now taken.now) i) }
    ensures first { IfSome result (λ i. (j : ℕ) → IsUnmarked boxes.now taken.now j
        → IsFree boxes.now (IsUnmarked boxes.now taken.now) j → i ≤ j) }
    ensures none { IfNone result ((j : ℕ) → IsUnmarked boxes.now taken.now j
        → IsFree boxes.now (IsUnmarked boxes.now taken.now) j → ⊥) }
{
    for i in 0..boxes.len() {
        if is_ready(boxes, taken, i) {
            return Some(i);
        }
    }
    None
}

/// The number of the first box that isn't taken.
fn first_left(boxes: &[Box3], taken: &[bool; 25]) -> Option<usize>
    requires { length boxes.now ≤ 25 }
    ensures left { IfSome result (λ i. IsUnmarked boxes.now taken.now i) }
    ensures first { IfSome result (λ i. (j : ℕ) → IsUnmarked boxes.now taken.now j → i ≤ j) }
    ensures none { IfNone result ((j : ℕ) → IsUnmarked boxes.now taken.now j → ⊥) }
{
    for i in 0..boxes.len() {
        if !taken[i] {
            return Some(i);
        }
    }
    None
}

/// The number of the box that is painted next: of those that aren't taken the first free one, or
/// the first where none is free. None where all are taken.
fn next_painted(boxes: &[Box3], taken: &[bool; 25]) -> Option<usize>
    requires few { length boxes.now ≤ 25 }
    requires near { All (IsBoxWithin (2 ^ 40)) boxes.now }
    ensures some { IfSome result (λ next. IsNext boxes.now (IsUnmarked boxes.now taken.now) next) }
    ensures none { IfNone result ((i : ℕ) → IsUnmarked boxes.now taken.now i → ⊥) }
{
    match first_free(boxes, taken) {
        None => first_left(boxes, taken),
        some => some,
    }
}

/// The order in which the boxes are painted, at most 25: again and again the first box left that
/// no other box left must precede, or the first box left where there is none.
pub fn painting_order(boxes: &[Box3]) -> Order
    requires few { length boxes.now ≤ 25 }
    requires near { All (IsBoxWithin (2 ^ 40)) boxes.now }
    ensures order { IsOrder boxes.now result.items }
    // What is painted first hides nothing of what comes later.
    ensures law { HidesNone boxes.now result.items }
{
    let mut order = ArrayVec::new();
    let mut taken = [false; 25];
    'painting: for _step in 0..boxes.len() {
        if let Some(next) = next_painted(boxes, &taken) {
            order.push(next as u8);
            taken[next] = true;
        }
    }
    order
}
