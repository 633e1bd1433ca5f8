// The state of a router as bytes in a buffer that a caller lends.
// Stays: two functions for each record, and no impl of `Stored`: the trait is of `laid` and the records of `places` and `position`, which know no bytes of a state (DECISIONS, 53), and an impl between two other crates is refused.
#![tactic(auto)]

pub mod place; // a place, with its attempt and its session
pub mod router_state; // a router
pub mod settings; // what a router is set up with
