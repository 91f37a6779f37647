//! How the tests compare.

use std::fmt::Debug;
use std::process::Abort;

/// Ends the test if two values differ. The prover proves each `assert_eq!` anew (PROVER.md, "What a check costs").
pub fn same<T: PartialEq + Debug + Drop>(rt: &impl Abort, found: T, wanted: T) {
    assert_eq!(rt; found, wanted);
}
