// Byte strings: their parts, the numbers in them, whether two are the same, and one written into a lent buffer. And the test of a range.
#![tactic(auto)]

pub mod range; // from a least to a most
pub mod part; // a part of a byte string
pub mod number; // numbers, most significant byte first
pub mod same; // equality
pub mod put; // writing at an offset, and arrays of a fixed size
