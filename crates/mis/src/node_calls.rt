// The calls on a node. Its state is a buffer that the caller lends, of the size that `mis_node_size` tells.
ghost use Rattle.std.specs.Prelude.{◌≡◌};
ghost use Rattle.node.specs.State.{set_up_node};
ghost use Rattle.hearing.specs.Hear.{heard};
ghost use Rattle.node.specs.Answers.{succeeded, failed};
ghost use Rattle.leaving.specs.Leave.{left, leaving};
ghost use Rattle.storednode.specs.Node.{node_from, node_size};
ghost use Rattle.lentnode.specs.Node.{NodeLeaves, NodeEnds, NodeSetsUp};

// How many bytes the state of a node has.
#[unsafe(no_mangle)]
pub extern "C" fn mis_node_size() -> usize
    ensures { result ≡ node_size }
{
    storednode::node_state::SIZE
}

// Sets a node up; after 18 the state stays as it was.
#[unsafe(no_mangle)]
pub extern "C" fn mis_node_set_up(
    state: &mut [u8],
    unit: u64,
    patience: u64,
    password: &[u8],
    account: &[u8],
    kind: u64,
    network: u64,
    address: &[u8; 6],
    router: &[u8; 6],
) -> u32
    ensures { NodeSetsUp state.old (set_up_node unit patience password.now account.now kind network address.now router.now) result state.new }
{
    lentnode::set_up(
        state, unit, patience, password, account, kind, network, address, router,
    )
}

// A beacon; `seed` is a new one of the caller's for the request that may answer it.
#[unsafe(no_mangle)]
pub extern "C" fn mis_node_hear(
    state: &mut [u8],
    clock: u64,
    seed: &[u8; 16],
    message: &[u8],
    out: &mut [u8],
    to: &mut [u8; 6],
) -> u32
    ensures { NodeLeaves state.old out.old to.old (heard (node_from state.old) clock seed.now message.now out.old) result state.new out.new to.new }
{
    lentnode::hear(state, clock, seed, message, out, to)
}

// A success.
#[unsafe(no_mangle)]
pub extern "C" fn mis_node_success(state: &mut [u8], clock: u64, message: &[u8]) -> u32
    ensures { NodeEnds state.old (succeeded (node_from state.old) clock message.now) result state.new }
{
    lentnode::success(state, clock, message)
}

// A failure.
#[unsafe(no_mangle)]
pub extern "C" fn mis_node_failure(state: &mut [u8], clock: u64, message: &[u8]) -> u32
    ensures { NodeEnds state.old (failed (node_from state.old) clock message.now) result state.new }
{
    lentnode::failure(state, clock, message)
}

// A terminating message.
#[unsafe(no_mangle)]
pub extern "C" fn mis_node_left(state: &mut [u8], clock: u64, message: &[u8]) -> u32
    ensures { NodeEnds state.old (left (node_from state.old) clock message.now) result state.new }
{
    lentnode::left(state, clock, message)
}

// The node leaves: a terminating message of its own.
#[unsafe(no_mangle)]
pub extern "C" fn mis_node_leave(
    state: &mut [u8],
    clock: u64,
    out: &mut [u8],
    to: &mut [u8; 6],
) -> u32
    ensures { NodeLeaves state.old out.old to.old (leaving (node_from state.old) clock out.old) result state.new out.new to.new }
{
    lentnode::leave(state, clock, out, to)
}
