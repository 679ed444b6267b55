//! What most tests assert. It is a function, so that it is proved once, and not wherever it is called.
use std::fmt::Debug;
use std::process::Abort;

/// What was found is what is wanted. If it isn't, the test ends, and prints both.
pub fn assert_same<T: PartialEq + Debug + Copy>(rt: &impl Abort, found: T, wanted: T) {
    assert_eq!(rt; found, wanted);
}
