//! One comparison for all tests: an `assert_eq!` is dear to prove, and here it is proved once for all that call this.
use std::fmt::Debug;
use std::process::Abort;

/// What is seen in the case of this name is what was expected.
pub fn expect<T: PartialEq + Debug>(rt: &impl Abort, name: &str, seen: &T, expected: &T) {
    assert_eq!(rt; seen, expected, "at {name}");
}
