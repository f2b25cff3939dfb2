//! What a test says of two values.
ghost use Rattle.std.specs.Prelude.{IsTrue};

use std::fmt::Debug;
use std::process::Abort;

/// Aborts with both values, unless they are equal.
pub fn assert_equal<T: PartialEq + Debug>(rt: &impl Abort, found: &T, wanted: &T)
    ensures { IsTrue (T.eq found.now wanted.now) }
{
    assert_eq!(*rt; *found, *wanted);
}
