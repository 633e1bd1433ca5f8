// The state of a node: its settings, its clock, the highest stamp that it used, its waiting request and its session.
ghost use Rattle.std.specs.Prelude.{◌≡◌};
ghost use Rattle.laid.specs.Field.{Keeps};
ghost use Rattle.storednode.specs.Node.{used_from, used_bytes, waiting_from, waiting_bytes, session_from, session_bytes, settings_from, settings_bytes, node_from, node_bytes};

use laid::stored::{Stored, read};
use node::{Node, Session, Settings, Waiting};
use octets::number::part;
use octets::put::put_bytes;

// Stays: two functions for each record, and no impl of `Stored`: the trait is of `laid` and the records of `node`, which knows no bytes (DECISIONS, 53), and an impl between two other crates is refused.

// How many bytes the state of a node has.
pub const SIZE: usize = 623;

// The used stamp that a byte string holds.
#[tactic(auto, unfolding(crate::specs::Node::used_from))]
fn used_from(s: &[u8]) -> Option<u64>
    ensures { result ≡ used_from s.now }
{
    if read(s, 0) { Some(read(s, 1)) } else { None }
}

// The bytes of a used stamp; zeros where there is none.
fn used_bytes(u: Option<u64>) -> [u8; 9]
    ensures { result ≡ used_bytes u }
{
    let mut t = [0u8; 9];
    match u {
        None => {}
        Some(n) => {
            true.put(&mut t, 0);
            n.put(&mut t, 1);
        }
    }
    t
}

// The waiting request that a byte string holds.
#[tactic(auto, unfolding(crate::specs::Node::waiting_from))]
fn waiting_from(s: &[u8]) -> Waiting
    ensures { result ≡ waiting_from s.now }
{
    Waiting {
        live: read(s, 0),
        stamp: read(s, 1),
        key: read(s, 9),
    }
}

// The bytes of a waiting request.
fn waiting_bytes(w: Waiting) -> [u8; 25]
    ensures { result ≡ waiting_bytes w }
{
    let mut t = [0u8; 25];
    w.live.put(&mut t, 0);
    w.stamp.put(&mut t, 1);
    w.key.put(&mut t, 9);
    t
}

// The session that a byte string holds.
#[tactic(auto, unfolding(crate::specs::Node::session_from))]
fn session_from(s: &[u8]) -> Session
    ensures { result ≡ session_from s.now }
{
    Session {
        live: read(s, 0),
        stamp: read(s, 1),
        key: read(s, 9),
        since: read(s, 25),
        lifetime: read(s, 33),
    }
}

// The bytes of a session.
fn session_bytes(v: Session) -> [u8; 35]
    ensures { result ≡ session_bytes v }
{
    let mut t = [0u8; 35];
    v.live.put(&mut t, 0);
    v.stamp.put(&mut t, 1);
    v.key.put(&mut t, 9);
    v.since.put(&mut t, 25);
    v.lifetime.put(&mut t, 33);
    t
}

// The settings that a byte string holds.
#[tactic(auto, unfolding(crate::specs::Node::settings_from))]
fn settings_from(s: &[u8]) -> Settings
    ensures { result ≡ settings_from s.now }
{
    Settings {
        unit: read(s, 0),
        patience: read(s, 4),
        password: read(s, 8),
        account: read(s, 269),
        kind: read(s, 530),
        network: read(s, 532),
        address: read(s, 534),
        router: read(s, 540),
    }
}

// The bytes of the settings.
fn settings_bytes(v: Settings) -> [u8; 546]
    ensures { result ≡ settings_bytes v }
{
    let mut t = [0u8; 546];
    v.unit.put(&mut t, 0);
    v.patience.put(&mut t, 4);
    v.password.put(&mut t, 8);
    v.account.put(&mut t, 269);
    v.kind.put(&mut t, 530);
    v.network.put(&mut t, 532);
    v.address.put(&mut t, 534);
    v.router.put(&mut t, 540);
    t
}

// The node that a byte string holds; what is missing counts as zeros.
#[tactic(auto, unfolding(crate::specs::Node::node_from))]
pub fn load(s: &[u8]) -> Node
    ensures { result ≡ node_from s.now }
{
    Node {
        settings: settings_from(part(s, 0, 546)),
        clock: read(s, 546),
        used: used_from(part(s, 554, 9)),
        waiting: waiting_from(part(s, 563, 25)),
        session: session_from(part(s, 588, 35)),
    }
}

// The bytes of a node, of which it is loaded again.
pub fn bytes(n: Node) -> [u8; SIZE]
    ensures { Keeps node_bytes node_from n result }
{
    let mut t = [0u8; SIZE];
    put_bytes(&mut t, 0, &settings_bytes(n.settings));
    n.clock.put(&mut t, 546);
    put_bytes(&mut t, 554, &used_bytes(n.used));
    put_bytes(&mut t, 563, &waiting_bytes(n.waiting));
    put_bytes(&mut t, 588, &session_bytes(n.session));
    t
}
