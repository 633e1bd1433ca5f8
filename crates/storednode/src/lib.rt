// The state of a node as bytes in a buffer that a caller lends.
#![tactic(auto)]

pub mod node_state; // a node, with its settings, its waiting request and its session
