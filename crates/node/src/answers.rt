// Answers to a node's request: a success (7, 1 to 6, 8, 21, 17) and a failure (7, 1 to 6, 21).
ghost use Rattle.std.specs.Prelude.{◌≡◌};
ghost use Rattle.misp.specs.Success.{success_from};
ghost use Rattle.node.specs.Answers.{awaits_answer, opened_node, after_refusal, opening_by, succeeded, failed};

use crate::state::{lapse, no_waiting, with_waiting};
use crate::{Node, Session};
use misp::success::Success;
use refusal::{Outcome, Refusal, refused, silent};

// Whether a stamp is that of the request that the node waits on.
#[tactic(auto, unfolding(crate::specs::Answers::awaits_answer))]
fn is_awaited(n: Node, stamp: u64) -> bool
    ensures { result ≡ awaits_answer n stamp }
{
    n.waiting.live && stamp == n.waiting.stamp
}

// A failure arrives: 7, 1 to 6, 21.
pub fn failure(n: Node, clock: u64, m: &[u8]) -> Outcome<Node>
    ensures { result ≡ (failed n clock m.now).outcome }
{
    if clock < n.clock {
        return refused(Refusal::ClockBack, n);
    }
    let node = lapse(n, clock);
    match misp::failure::read_failure(m) {
        Err(why) => refused(why, node),
        Ok(v) => {
            if is_awaited(node, v.stamp) {
                silent(Ok(()), with_waiting(no_waiting(), node))
            } else {
                refused(Refusal::NotExpected, node)
            }
        }
    }
}

// A success that lacks a mandatory object ends waiting too.
#[tactic(auto, unfolding(crate::specs::Answers::after_refusal))]
fn after_refusal(why: Refusal, n: Node) -> Node
    ensures { result ≡ after_refusal why n }
{
    if matches!(why, Refusal::MissingObject) {
        with_waiting(no_waiting(), n)
    } else {
        n
    }
}

// The node in the session that its request asked for.
#[tactic(auto, unfolding(crate::specs::Answers::opened_node, crate::specs::State::with_session, crate::specs::State::with_waiting))]
fn opened(n: Node, lifetime: u16) -> Node
    ensures { result ≡ opened_node n lifetime }
{
    // Stays: a local for the key; an array that is a field gets no proof where it is put straight into a literal.
    let key = n.waiting.key;
    let session = Session {
        live: true,
        stamp: n.waiting.stamp,
        key,
        since: n.clock,
        lifetime,
    };
    Node {
        waiting: no_waiting(),
        session,
        ..n
    }
}

// What a success that was read does: 8, 21, 17, then it opens.
fn open_by(n: Node, v: Success, m: &[u8]) -> Outcome<Node>
    ensures { result ≡ (opening_by n m.now (success_from m.now v)).outcome }
{
    match checked::under_key(
        v.s,
        is_awaited(n, v.stamp),
        n.waiting.key,
        m,
        n.settings.router,
        n.settings.address,
        v.check,
    ) {
        Err(why) => refused(why, n),
        Ok(()) => silent(Ok(()), opened(n, v.lifetime)),
    }
}

// A success arrives: 7, 1 to 6, then what it does.
pub fn success(n: Node, clock: u64, m: &[u8]) -> Outcome<Node>
    ensures { result ≡ (succeeded n clock m.now).outcome }
{
    if clock < n.clock {
        return refused(Refusal::ClockBack, n);
    }
    let node = lapse(n, clock);
    match misp::success::read_success(m) {
        Err(why) => refused(why, after_refusal(why, node)),
        Ok(v) => open_by(node, v, m),
    }
}
