// The state of a node: setup, lapse, and what a call hands back (the paper, 'Steps').
ghost use Rattle.std.specs.Prelude.{◌≡◌, []};
ghost use Rattle.refusal.specs.Step.{refused_with, silent};
ghost use Rattle.terms.specs.Terms.{takes_type};
ghost use Rattle.node.specs.State.{settings_in_range, set_up_node, fresh_node, no_waiting, no_session, session_at, lapsed_at, with_waiting, with_session, sent};

use crate::{Node, Session, Settings, Waiting};
use held::{Held, hold};
use octets::range::is_within;
use refusal::{Outcome, Refusal, To};

// No request is waited on.
pub fn no_waiting() -> Waiting
    ensures { result ≡ no_waiting }
{
    Waiting {
        live: false,
        stamp: 0,
        key: [0u8; 16],
    }
}

// Not open.
pub fn no_session() -> Session
    ensures { result ≡ no_session }
{
    Session {
        live: false,
        stamp: 0,
        key: [0u8; 16],
        since: 0,
        lifetime: 0,
    }
}

impl Node {
    // The fresh node with these settings: clock 0, no stamp used, no request and no session.
    pub fn fresh(settings: Settings) -> Self
        ensures { result ≡ fresh_node settings }
    {
        Self {
            settings,
            clock: 0,
            used: None,
            waiting: no_waiting(),
            session: no_session(),
        }
    }
}

// The same node with another request waiting.
#[tactic(auto, unfolding(crate::specs::State::with_waiting))]
pub fn with_waiting(waiting: Waiting, n: Node) -> Node
    ensures { result ≡ with_waiting waiting n }
{
    Node { waiting, ..n }
}

// The same node with another session.
#[tactic(auto, unfolding(crate::specs::State::with_session))]
pub fn with_session(session: Session, n: Node) -> Node
    ensures { result ≡ with_session session n }
{
    Node { session, ..n }
}

// What the clock leaves of a session.
#[tactic(auto, unfolding(crate::specs::State::session_at))]
fn session_at(clock: u64, unit: u32, s: Session) -> Session
    ensures { result ≡ session_at clock unit s }
{
    if clock::over(clock, s.since, s.lifetime, unit) {
        no_session()
    } else {
        s
    }
}

// The clock is stored, and what has lapsed goes.
#[tactic(auto, unfolding(crate::specs::State::lapsed_at))]
pub fn lapse(n: Node, clock: u64) -> Node
    ensures { result ≡ lapsed_at clock n }
{
    Node {
        clock,
        session: session_at(clock, n.settings.unit, n.session),
        ..n
    }
}

// A call that wrote a message to the node's router.
pub fn send(node: Node, written: usize) -> Outcome<Node>
    ensures { result ≡ sent node written }
{
    Outcome {
        answer: Ok(()),
        state: node,
        written,
        to: To::Address(node.settings.router),
    }
}

// Whether a number of 64 bits is a security type that we take.
fn is_type(kind: u64) -> bool
    ensures { result ≡ takes_type kind }
{
    if kind <= 65535 {
        terms::takes_type(kind as u16)
    } else {
        false
    }
}

// Whether each setting is in its range.
fn settings_in_range(
    u: u64,
    p: u64,
    password: &[u8],
    account: &[u8],
    kind: u64,
    network: u64,
) -> bool
    ensures { result ≡ settings_in_range u p password.now account.now kind network }
{
    if !is_within(1, 4294967295, u) {
        return false;
    }
    if !is_within(1, 4294967295, p) {
        return false;
    }
    if !is_within(1, Held::MOST as u64, password.len() as u64) {
        return false;
    }
    if !is_within(1, Held::MOST as u64, account.len() as u64) {
        return false;
    }
    if is_type(kind) {
        network <= 65535
    } else {
        false
    }
}

// Setup: every setting in its range, or 18 and nothing is made.
pub fn set_up(
    u: u64,
    p: u64,
    password: &[u8],
    account: &[u8],
    kind: u64,
    network: u64,
    address: [u8; 6],
    router: [u8; 6],
) -> Result<Node, Refusal>
    ensures { result ≡ set_up_node u p password.now account.now kind network address router }
{
    if !settings_in_range(u, p, password, account, kind, network) {
        return Err(Refusal::OutOfRange);
    }
    let settings = Settings {
        unit: u as u32,
        patience: p as u32,
        password: hold(password),
        account: hold(account),
        kind: kind as u16,
        network: network as u16,
        address,
        router,
    };
    Ok(Node::fresh(settings))
}
