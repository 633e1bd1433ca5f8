// The calls as C and Rust programs make them: numbers and lent bytes go in, and one number comes back. Each export calls what stands below.
#![tactic(auto)]

pub mod codes; // MD5 and HMAC-MD5
pub mod node_calls; // a node, over its stored state
pub mod reading; // the bare readers
pub mod router_calls; // a router, over its stored state
pub mod server_calls; // the login server
pub mod writing; // the bare writers
