// Tests by what they call.
mod arenas;
mod scripts;

use std::fmt::Debug;
use std::process::Abort;

/// Ends a test that has not seen what is wanted. The tests share it, since a proof that prints two values is
/// long.
fn assert_same<T: Debug + PartialEq>(rt: &impl Abort, seen: &T, wanted: &T) {
    assert_eq!(rt; seen, wanted);
}
