// The hall of a replay: one router, one server with two books, eight nodes, and a call on each of them (docs/REPLAY.md).
#![tactic(auto)]

pub mod state; // the parties, and what a call leaves of them
pub mod setups; // a router, a node, the books and the room take their place
pub mod at_router; // calls on the router
pub mod at_node; // calls on the nodes
pub mod at_server; // the server's login
pub mod reports; // the taken places, each place, a node's state
