// What `replay` prints: answers of calls and reports of states, put into a lent text (docs/REPLAY.md).
#![tactic(auto)]

pub mod printing; // numbers, byte strings and the answer of a call
pub mod reports; // the taken places, each place, a node's state
