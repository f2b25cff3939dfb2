//! The reasons that are common to all rows with a set of folded bends.
ghost use Rattle.std.specs.Prelude.{◌≡◌, ◌<◌, ◌≤◌, ◌+◌, ◌⊎◌, ℕ, Some, slice_index_or, vec_len, vec_capacity};
ghost use Rattle.row_pool.specs.Notes.{noted_at};
ghost use Rattle.row_pool.specs.Rows.{first_reason};

use crate::kept_reason::KeptReason;
use brake_base::Reason;

/// Fills a list up with a value, so that the place is in it.
#[tactic(auto, using(crate::proofs::CommonLemmas::fill_lemmas))]
fn fill<T: Copy>(list: &mut Vec<T>, place: usize, value: T)
    requires room { place < vec_capacity list.old }
    ensures place { place < vec_len list.new }
    ensures same { (k : ℕ)
        → slice_index_or list.new.items k value ≡ slice_index_or list.old.items k value }
    ensures same_memory { vec_capacity list.new ≡ vec_capacity list.old }
{
    while list.len() <= place {
        list.push_reserved(value);
    }
}

/// Keeps the reason at a place, where none is kept there yet.
pub fn keep(kept: &mut Vec<KeptReason>, place: usize, reason: Reason)
    requires room { place < vec_capacity kept.old }
    ensures here { noted_at kept.new.items place
        ≡ Some (first_reason (noted_at kept.old.items place) reason) }
    ensures others { (k : ℕ) → (k ≡ place → ⊥)
        → noted_at kept.new.items k ≡ noted_at kept.old.items k }
    ensures same_memory { vec_capacity kept.new ≡ vec_capacity kept.old }
{
    fill(kept, place, KeptReason::Unset);
    match kept[place].reason() {
        Some(_) => {}
        None => kept[place] = KeptReason::of(reason),
    }
}

/// The reason that is kept at a place. None where none is, as past the last that was kept.
pub fn kept_at(kept: &[KeptReason], place: usize) -> Option<Reason>
    ensures { result ≡ noted_at kept.now place }
{
    match kept.get(place) {
        Some(kept) => kept.reason(),
        None => None,
    }
}
