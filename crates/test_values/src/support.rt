//! What the tests share.

use crate::written::deal;
use cards::Deal;
use std::fmt::Debug;
use std::process::Abort;

/// The deal of these hands.
pub fn deal_of(rt: &impl Abort, hands: &[u8]) -> Deal {
    deal(hands).expect(rt, "thirteen cards each")
}

/// The two values are equal. Tests of many values call this for each.
pub fn same<T: Copy + PartialEq + Debug>(rt: &impl Abort, found: T, wanted: T) {
    assert_eq!(rt; found, wanted);
}
