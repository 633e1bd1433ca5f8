// A beacon at a node: 20, 7, 1 to 6, 21, 13, 9, 10, and 18 where the request cannot be written.
#![tactic(auto)]

ghost use Rattle.std.specs.Prelude.{◌≡◌, ◌≤◌, length};
ghost use Rattle.held.specs.Held.{held_bytes};
ghost use Rattle.object.specs.declared.family.Family.TheVariants.{Misp};
ghost use Rattle.object.specs.Family.{limit_of};
ghost use Rattle.message.specs.Writing.{Writes, is_name};
ghost use Rattle.beacons.specs.Beacon.{beacon_from};
ghost use Rattle.refusal.specs.Step.{Leaves};
ghost use Rattle.hearing.specs.Hear.{engaged, is_above, request_for, waits_for, asking_router, answering, heard};

use beacons::beacon::Beacon;
use node::state::{lapse, send};
use node::{Node, Waiting};
use object::family::Family;
use refusal::{Outcome, Refusal, refused};

// Whether the node is open, or waits and its patience is not over.
#[tactic(auto, unfolding(crate::specs::Hear::engaged))]
fn is_engaged(n: Node, stamp: u64) -> bool
    ensures { result ≡ engaged n stamp }
{
    if n.session.live {
        return true;
    }
    n.waiting.live && clock::elapsed(stamp, n.waiting.stamp) <= u64::from(n.settings.patience)
}

// Whether a stamp is above all that the node used.
fn is_above(stamp: u64, used: Option<u64>) -> bool
    ensures { result ≡ is_above stamp used }
{
    match used {
        None => true,
        Some(u) => u < stamp,
    }
}

// The node that waits for the answer to its request.
#[tactic(auto, unfolding(crate::specs::Hear::waits_for))]
fn waits(n: Node, seed: [u8; 16], stamp: u64) -> Node
    ensures { result ≡ waits_for n seed stamp }
{
    let key = icv::session_key(n.settings.password.as_slice(), seed);
    Node {
        used: Some(stamp),
        waiting: Waiting {
            live: true,
            stamp,
            key,
        },
        ..n
    }
}

// The request that the node sends: its own values, the beacon's stamp and the caller's seed.
fn write_request(n: Node, seed: [u8; 16], stamp: u64, out: &mut [u8]) -> Result<usize, Refusal>
    ensures { Writes Misp (is_name (held_bytes n.settings.account)) (request_for n seed stamp) out.old out.new result }
{
    checked::write_request(
        out,
        n.settings.password.as_slice(),
        n.settings.address,
        n.settings.router,
        stamp,
        n.settings.kind,
        n.settings.account.as_slice(),
        seed,
        n.settings.network,
    )
}

// The request, and the node that waits for its answer.
fn ask(n: Node, seed: [u8; 16], stamp: u64, out: &mut [u8]) -> Outcome<Node>
    requires { limit_of Misp ≤ length out.old }
    ensures { Leaves (asking_router n seed stamp out.old) result out.new }
{
    match write_request(n, seed, stamp, out) {
        Err(why) => refused(why, n),
        Ok(k) => send(waits(n, seed, stamp), k),
    }
}

// What a beacon that was read does: 21, 13, 9, 10, then the request.
fn answer_beacon(n: Node, seed: [u8; 16], v: Beacon, m: &[u8], out: &mut [u8]) -> Outcome<Node>
    requires { limit_of Misp ≤ length out.old }
    ensures { Leaves (answering n seed (beacon_from m.now v) out.old) result out.new }
{
    if is_engaged(n, v.stamp) {
        return refused(Refusal::NotExpected, n);
    }
    if !is_above(v.stamp, n.used) {
        return refused(Refusal::StampUsed, n);
    }
    if !terms::is_listed(octets::part::bytes_at(m, v.security), n.settings.kind) {
        return refused(Refusal::SecurityType, n);
    }
    if !terms::is_listed(octets::part::bytes_at(m, v.layers), n.settings.network) {
        return refused(Refusal::NetworkNumber, n);
    }
    ask(n, seed, v.stamp, out)
}

// A beacon arrives: 20, 7, 1 to 6, then what it does.
pub fn hear(n: Node, clock: u64, seed: [u8; 16], m: &[u8], out: &mut [u8]) -> Outcome<Node>
    ensures { Leaves (heard n clock seed m.now out.old) result out.new }
{
    if out.len() < Family::Misp.limit() {
        return refused(Refusal::SmallOutput, n);
    }
    if clock < n.clock {
        return refused(Refusal::ClockBack, n);
    }
    let node = lapse(n, clock);
    match beacons::beacon::read_beacon(m) {
        Err(why) => refused(why, node),
        Ok(v) => answer_beacon(node, seed, v, m, out),
    }
}
