// The calls on a node over buffers that the caller lends: a state as bytes, of the size that the library tells, an output, an address; one number
// comes back. The state is small: each call loads it and stores it whole.
// Stays: the size is tested in each call; `let Some(node) = sized(state) else { return MISUSE };` is three lines as well, and needs a function more.
#![tactic(auto)]

ghost use Rattle.std.specs.Prelude.{◌≡◌, length};
ghost use Rattle.node.specs.State.{set_up_node};
ghost use Rattle.hearing.specs.Hear.{heard};
ghost use Rattle.node.specs.Answers.{succeeded, failed};
ghost use Rattle.leaving.specs.Leave.{left, leaving};
ghost use Rattle.storednode.specs.Node.{node_from, node_size};
ghost use Rattle.shell.specs.Shell.{Hands};
ghost use Rattle.lentnode.specs.Node.{node_party, NodeLeaves, NodeEnds, NodeSetsUp};

use handed::{MISUSE, coded};
use node::Node;
use octets::put::put_bytes;
use refusal::{Outcome, To};
use shell::give_back;
use storednode::node_state::{SIZE, bytes, load};

// Stores the new state and hands out the address.
fn hand_back(o: Outcome<Node>, state: &mut [u8], to: &mut [u8; 6]) -> u32
    requires { length state.old ≡ node_size }
    ensures { Hands node_party o to.old result state.new to.new }
{
    let t = bytes(o.state);
    give_back(o.answer, o.to, o.written, &t, state, to)
}

// Sets a node up; after 18 the state stays as it was.
pub fn set_up(
    state: &mut [u8],
    unit: u64,
    patience: u64,
    password: &[u8],
    account: &[u8],
    kind: u64,
    network: u64,
    address: &[u8; 6],
    router: &[u8; 6],
) -> u32
    ensures { NodeSetsUp state.old (set_up_node unit patience password.now account.now kind network address.now router.now) result state.new }
{
    if state.len() != SIZE {
        return MISUSE;
    }
    let made = node::state::set_up(
        unit, patience, password, account, kind, network, *address, *router,
    );
    match made {
        Err(why) => coded(Err(why), To::Nobody, 0),
        Ok(node) => {
            put_bytes(state, 0, &bytes(node));
            coded(Ok(()), To::Nobody, 0)
        }
    }
}

// A beacon; `seed` is a new one of the caller's for the request that may answer it.
pub fn hear(
    state: &mut [u8],
    clock: u64,
    seed: &[u8; 16],
    message: &[u8],
    out: &mut [u8],
    to: &mut [u8; 6],
) -> u32
    ensures { NodeLeaves state.old out.old to.old (heard (node_from state.old) clock seed.now message.now out.old) result state.new out.new to.new }
{
    if state.len() != SIZE {
        return MISUSE;
    }
    let o = hearing::hear(load(state), clock, *seed, message, out);
    hand_back(o, state, to)
}

// A success.
pub fn success(state: &mut [u8], clock: u64, message: &[u8]) -> u32
    ensures { NodeEnds state.old (succeeded (node_from state.old) clock message.now) result state.new }
{
    if state.len() != SIZE {
        return MISUSE;
    }
    let o = node::answers::success(load(state), clock, message);
    let mut nowhere = [0u8; 6];
    hand_back(o, state, &mut nowhere)
}

// A failure.
pub fn failure(state: &mut [u8], clock: u64, message: &[u8]) -> u32
    ensures { NodeEnds state.old (failed (node_from state.old) clock message.now) result state.new }
{
    if state.len() != SIZE {
        return MISUSE;
    }
    let o = node::answers::failure(load(state), clock, message);
    let mut nowhere = [0u8; 6];
    hand_back(o, state, &mut nowhere)
}

// A terminating message.
pub fn left(state: &mut [u8], clock: u64, message: &[u8]) -> u32
    ensures { NodeEnds state.old (left (node_from state.old) clock message.now) result state.new }
{
    if state.len() != SIZE {
        return MISUSE;
    }
    let o = leaving::left(load(state), clock, message);
    let mut nowhere = [0u8; 6];
    hand_back(o, state, &mut nowhere)
}

// The node leaves: a terminating message of its own.
pub fn leave(state: &mut [u8], clock: u64, out: &mut [u8], to: &mut [u8; 6]) -> u32
    ensures { NodeLeaves state.old out.old to.old (leaving (node_from state.old) clock out.old) result state.new out.new to.new }
{
    if state.len() != SIZE {
        return MISUSE;
    }
    let o = leaving::leave(load(state), clock, out);
    hand_back(o, state, to)
}
