// A router's state, read and changed where it stands in a lent buffer.
#![tactic(auto)]

pub mod reading; // settings, clock and places, the place of an address, the taken places
pub mod changing; // a place put, and what has lapsed goes
