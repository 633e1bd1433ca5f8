// Calls on the nodes of the hall.
ghost use Rattle.std.specs.Prelude.{◌≡◌, []};
ghost use Rattle.node.specs.declared.Node.{Node};
ghost use Rattle.hearing.specs.Hear.{heard};
ghost use Rattle.node.specs.Answers.{succeeded, failed};
ghost use Rattle.leaving.specs.Leave.{leaving, left};
ghost use Rattle.refusal.specs.Step.{Leaves};
ghost use Rattle.hall.specs.Calls.{by_node, at_node};

use crate::state::{Hall, Stepped, is_present, node_of, said, unread, with_node};
use node::Node;
use refusal::Outcome;

// The node as its call left it, and the answer of that call.
fn after(hall: Hall, i: usize, o: Outcome<Node>) -> Stepped
    ensures { result ≡ by_node i hall o }
{
    Stepped {
        hall: with_node(hall, i, o.state),
        said: said(o.answer, o.written, o.to),
    }
}

// `hear I NOW SEED MESSAGE`
pub fn hear(hall: Hall, i: usize, clock: u64, seed: [u8; 16], m: &[u8], out: &mut [u8]) -> Stepped
    ensures { Leaves (at_node i hall (λ (n : Node). heard n clock seed m.now out.old) out.old) result out.new }
{
    if !is_present(hall, i) {
        return unread(hall);
    }
    let n = node_of(hall, i);
    after(hall, i, hearing::hear(n, clock, seed, m, out))
}

// `success I NOW MESSAGE`
pub fn success(hall: Hall, i: usize, clock: u64, m: &[u8]) -> Stepped
    ensures { result ≡ (at_node i hall (λ (n : Node). succeeded n clock m.now) []).outcome }
{
    if !is_present(hall, i) {
        return unread(hall);
    }
    let n = node_of(hall, i);
    after(hall, i, node::answers::success(n, clock, m))
}

// `failure I NOW MESSAGE`
pub fn failure(hall: Hall, i: usize, clock: u64, m: &[u8]) -> Stepped
    ensures { result ≡ (at_node i hall (λ (n : Node). failed n clock m.now) []).outcome }
{
    if !is_present(hall, i) {
        return unread(hall);
    }
    let n = node_of(hall, i);
    after(hall, i, node::answers::failure(n, clock, m))
}

// `leave I NOW`
pub fn leave(hall: Hall, i: usize, clock: u64, out: &mut [u8]) -> Stepped
    ensures { Leaves (at_node i hall (λ (n : Node). leaving n clock out.old) out.old) result out.new }
{
    if !is_present(hall, i) {
        return unread(hall);
    }
    let n = node_of(hall, i);
    after(hall, i, leaving::leave(n, clock, out))
}

// `left I NOW MESSAGE`
pub fn left(hall: Hall, i: usize, clock: u64, m: &[u8]) -> Stepped
    ensures { result ≡ (at_node i hall (λ (n : Node). left n clock m.now) []).outcome }
{
    if !is_present(hall, i) {
        return unread(hall);
    }
    let n = node_of(hall, i);
    after(hall, i, leaving::left(n, clock, m))
}
