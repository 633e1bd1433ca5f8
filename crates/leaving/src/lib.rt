// Terminating messages at a node: one that arrives (7, 1 to 6, 8, 21, 17), and one that it writes (20, 7, 21).
#![tactic(auto)]

ghost use Rattle.std.specs.Prelude.{◌≡◌, ◌≤◌, length};
ghost use Rattle.object.specs.declared.family.Family.TheVariants.{Misp};
ghost use Rattle.object.specs.Family.{limit_of};
ghost use Rattle.misp.specs.Terminating.{terminating_from};
ghost use Rattle.refusal.specs.Step.{Leaves};
ghost use Rattle.leaving.specs.Leave.{in_session, closed_by, left, leaving_now, leaving};

use misp::terminating::Terminating;
use node::Node;
use node::state::{lapse, no_session, send, with_session};
use object::family::Family;
use refusal::{Outcome, Refusal, refused, silent};

// Whether a stamp is that of the node's session.
fn is_session(n: Node, stamp: u64) -> bool
    ensures { result ≡ in_session n stamp }
{
    n.session.live && stamp == n.session.stamp
}

// What a terminating message that was read does: 8, 21, 17, then it closes.
fn close_by(n: Node, v: Terminating, m: &[u8]) -> Outcome<Node>
    ensures { result ≡ (closed_by n m.now (terminating_from m.now v)).outcome }
{
    match checked::under_key(
        v.s,
        is_session(n, v.stamp),
        n.session.key,
        m,
        n.settings.router,
        n.settings.address,
        v.check,
    ) {
        Err(why) => refused(why, n),
        Ok(()) => silent(Ok(()), with_session(no_session(), n)),
    }
}

// A terminating message arrives: 7, 1 to 6, then what it does.
pub fn left(n: Node, clock: u64, m: &[u8]) -> Outcome<Node>
    ensures { result ≡ (left n clock m.now).outcome }
{
    if clock < n.clock {
        return refused(Refusal::ClockBack, n);
    }
    let node = lapse(n, clock);
    match misp::terminating::read_terminating(m) {
        Err(why) => refused(why, node),
        Ok(v) => close_by(node, v, m),
    }
}

// The node's own terminating message; 21 where it has no session.
fn leave_now(n: Node, out: &mut [u8]) -> Outcome<Node>
    requires { limit_of Misp ≤ length out.old }
    ensures { Leaves (leaving_now n out.old) result out.new }
{
    if !n.session.live {
        return refused(Refusal::NotExpected, n);
    }
    match checked::write_terminating(
        out,
        &n.session.key,
        n.settings.address,
        n.settings.router,
        n.session.stamp,
    ) {
        Err(why) => refused(why, n),
        Ok(k) => send(with_session(no_session(), n), k),
    }
}

// The node leaves: it writes a terminating message, and its session is closed; 20, 7, 21.
pub fn leave(n: Node, clock: u64, out: &mut [u8]) -> Outcome<Node>
    ensures { Leaves (leaving n clock out.old) result out.new }
{
    if out.len() < Family::Misp.limit() {
        return refused(Refusal::SmallOutput, n);
    }
    if clock < n.clock {
        return refused(Refusal::ClockBack, n);
    }
    leave_now(lapse(n, clock), out)
}
