// A node, a gauge on the crane (the paper, 'Steps'): its state and setup, and the answers that it waits for. Above it, `hearing` has a beacon, `leaving` a terminating message.
#![tactic(auto)]

pub mod answers; // a success and a failure that arrive
pub mod state; // a fresh node, setup, what lapses, and what a call hands back

use held::Held;

// What a node is set up with.
#[derive(Clone, Copy)]
pub struct Settings {
    pub unit: u32,
    pub patience: u32,
    pub password: Held,
    pub account: Held,
    pub kind: u16,
    pub network: u16,
    pub address: [u8; 6],
    pub router: [u8; 6],
}

// Stays: here and below a flag beside the values, and no Option: a stored state may hold something under a cleared flag (DECISIONS, 18), which a refused call
// leaves as it is (`NodeLeaves`).

// A request that waits for its answer: its stamp, and the session key that its seed gives.
#[derive(Clone, Copy)]
pub struct Waiting {
    pub live: bool,
    pub stamp: u64,
    pub key: [u8; 16],
}

// A session: its stamp and key, when it was opened by the node's own clock, and the lifetime that the success gave.
#[derive(Clone, Copy)]
pub struct Session {
    pub live: bool,
    pub stamp: u64,
    pub key: [u8; 16],
    pub since: u64,
    pub lifetime: u16,
}

// A node: its settings, the stored clock, what it used, and perhaps a request that waits and a session.
#[derive(Clone, Copy)]
pub struct Node {
    pub settings: Settings,
    pub clock: u64,
    pub used: Option<u64>,
    pub waiting: Waiting,
    pub session: Session,
}
