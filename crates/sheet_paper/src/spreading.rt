//! Labels that stand on one line are moved apart.

ghost use Rattle.std.specs.Prelude.{◌≡◌, ◌^◌, ◌≤◌, ℤ, pos, ◌+ℤ◌, ◌*ℤ◌, ◌≤ℤ◌, length, All, unsigned_abs};
ghost use Rattle.sheet_paper.specs.Spreading.{pushed_up, pushed_down, room_below, spread_out, AreApart};

use arrayvec::ArrayVec;

/// Places along a line, in ascending order.
pub type Places = ArrayVec<i64, 16>;

/// Places pushed up from the low end, each at least the gap above the one before it.
fn push_up(places: &[i64], low: i64, gap: i64) -> Places
    requires few { length places.now ≤ 16 }
    requires near { All (λ place. unsigned_abs place ≤ 2 ^ 52) places.now }
    requires low { unsigned_abs low ≤ 2 ^ 52 }
    requires gap { unsigned_abs gap ≤ 2 ^ 52 }
    ensures value { result.items ≡ pushed_up low gap places.now }
    ensures near { All (λ place. unsigned_abs place ≤ 2 ^ 57) result.items }
{
    let mut pushed: Places = ArrayVec::new();
    let mut least = low;
    for place in places {
        let moved = (*place).max(least);
        pushed.push(moved);
        least = moved + gap;
    }
    pushed
}

/// Places pushed down from the high end, each at least the gap below the one behind it.
fn push_down(places: &mut [i64], high: i64, gap: i64)
    requires few { length places.old ≤ 16 }
    requires near { All (λ place. unsigned_abs place ≤ 2 ^ 57) places.old }
    requires high { unsigned_abs high ≤ 2 ^ 52 }
    requires gap { unsigned_abs gap ≤ 2 ^ 52 }
    ensures { places.new ≡ pushed_down high gap places.old }
{
    let mut most = high;
    for done in 0..places.len() {
        let i = places.len() - 1 - done;
        let moved = places[i].min(most);
        places[i] = moved;
        most = moved - gap;
    }
}

/// Labels that stand on one line between a low and a high end, moved apart: each at least the gap
/// above the one before it, first pushed up from the low end, then down from the high end.
pub fn spread(places: &[i64], low: i64, high: i64, gap: i64) -> Places
    requires few { length places.now ≤ 16 }
    requires near { All (λ place. unsigned_abs place ≤ 2 ^ 52) places.now }
    requires low { unsigned_abs low ≤ 2 ^ 52 }
    requires high { unsigned_abs high ≤ 2 ^ 52 }
    requires gap { unsigned_abs gap ≤ 2 ^ 52 }
    ensures value { result.items ≡ spread_out low high gap places.now }
    ensures same { length result.items ≡ length places.now }
    ensures near { All (λ place. unsigned_abs place ≤ 2 ^ 58) result.items }
    ensures apart { AreApart gap result.items }
    // With a gap of 0 or more no label stands beyond the high end, and where there is room for all
    // none stands before the low end.
    ensures high { pos 0 ≤ℤ gap → All (λ place. place ≤ℤ high) result.items }
    ensures low { pos 0 ≤ℤ gap → (low +ℤ (pos (length places.now) *ℤ gap)) ≤ℤ (high +ℤ gap)
        → All (λ place. low ≤ℤ place) result.items }
{
    let mut spread = push_up(places, low, gap);
    push_down(spread.as_mut_slice(), high, gap);
    spread
}
