// A router's beacon and its terminating messages (the paper, 'Steps'); a node's request stands in `entering`, a reply of the server in `settling`.
#![tactic(auto)]

pub mod beacon; // its beacon
pub mod close; // terminating messages, written and arriving
