//! Which of two keys comes next, and the reasons of two rows of one key together.
ghost use Rattle.std.specs.Prelude.{◌≡◌, ℕ, Some, None, slice_index_or};
ghost use Rattle.cert_merge.specs.Entries.{first_reason};
ghost use Rattle.cert_merge.specs.MergeSteps.{next_of};

use brake_base::{Key, Reason};

/// Which of two tables has the next key.
#[derive(Clone, Copy)]
pub(crate) enum Next {
    First,
    Second,
    Both,
}

/// Which of two next keys comes first.
pub(crate) fn next_of(first: Option<Key>, second: Option<Key>) -> Next
    ensures { result ≡ next_of first second }
{
    match (first, second) {
        (Some(a), Some(b)) => earlier_of(&a, &b),
        (Some(_), None) => Next::First,
        (None, _) => Next::Second,
    }
}

/// Which of two keys is the earlier.
fn earlier_of(first: &Key, second: &Key) -> Next
    ensures { result ≡ next_of (Some first.now) (Some second.now) }
{
    if first.is_before(second) {
        Next::First
    } else if second.is_before(first) {
        Next::Second
    } else {
        Next::Both
    }
}

/// The reasons of both, of two against one action the first.
pub(crate) fn united(
    first: &[Option<Reason>; 144],
    second: &[Option<Reason>; 144],
) -> [Option<Reason>; 144]
    ensures { (action : ℕ) → slice_index_or result action None
        ≡ first_reason (slice_index_or first.now action None)
        (slice_index_or second.now action None) }
{
    let mut both = [None; 144];
    for action in 0..144 {
        both[action] = first_of(first[action], second[action]);
    }
    both
}

/// The first of two reasons in the order of reasons, or the one that there is.
fn first_of(first: Option<Reason>, second: Option<Reason>) -> Option<Reason>
    ensures { result ≡ first_reason first second }
{
    match (first, second) {
        (Some(a), Some(b)) => Some(if b.is_before(a) { b } else { a }),
        (Some(a), None) => Some(a),
        (None, other) => other,
    }
}
