//! The numbers of a refusal.
#![tactic(auto)]

ghost use Rattle.std.specs.Prelude.{◌≡◌, ◌<◌, ◌≤◌, ◌∷◌, length};

use arrayvec::ArrayVec;

/// The number of a refusal among those of its file, and then its own numbers, in the order of its
/// fields.
pub type Numbers = ArrayVec<u32, 8>;

/// These numbers.
pub fn numbers(list: &[u32]) -> Numbers
    requires { length list.now ≤ 8 }
    ensures { result.items ≡ list.now }
{
    let mut numbers = ArrayVec::new();
    let _ = numbers.try_extend_from_slice(list);
    numbers
}

/// A number, and behind it those of an inner refusal.
pub fn number_before(number: u32, inner: &Numbers) -> Numbers
    requires { length inner.now.items < 8 }
    ensures { result.items ≡ number ∷ inner.now.items }
{
    let mut numbers = ArrayVec::new();
    let _ = numbers.try_push(number);
    let _ = numbers.try_extend_from_slice(inner.as_slice());
    numbers
}
