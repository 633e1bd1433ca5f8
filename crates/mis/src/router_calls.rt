// The calls on a router. Its state is a buffer that the caller lends, of the size that `mis_router_size` tells.
ghost use Rattle.std.specs.Prelude.{◌≡◌};
ghost use Rattle.position.specs.Position.{position_of};
ghost use Rattle.places.specs.State.{set_up_router, word_of, count_of};
ghost use Rattle.router.specs.Beacon.{beaconed};
ghost use Rattle.entering.specs.Request.{requested};
ghost use Rattle.settling.specs.Reply.{replied};
ghost use Rattle.router.specs.Close.{closing, closed};
ghost use Rattle.storedrouter.specs.Router.{router_from, router_size};
ghost use Rattle.shell.specs.Shell.{asked};
ghost use Rattle.lentrouter.specs.Router.{RouterLeaves, RouterEnds, RouterSetsUp};

// How many bytes the state of a router has.
#[unsafe(no_mangle)]
pub extern "C" fn mis_router_size() -> usize
    ensures { result ≡ router_size }
{
    storedrouter::router_state::SIZE
}

// Sets a router up; after 18 the state stays as it was.
#[unsafe(no_mangle)]
pub extern "C" fn mis_router_set_up(
    state: &mut [u8],
    window: u64,
    unit: u64,
    lifetime: u64,
    network: u64,
    address: &[u8; 6],
    ipv4: &[u8; 4],
    secret: &[u8],
    position: &[u8; 12],
    interval: u64,
    groups: &[u8],
) -> u32
    ensures { RouterSetsUp state.old (set_up_router window unit lifetime network address.now ipv4.now secret.now (position_of position.now) interval groups.now) result state.new }
{
    lentrouter::set_up(
        state, window, unit, lifetime, network, address, ipv4, secret, position, interval, groups,
    )
}

// The router's beacon, with the clock as stamp and the caller's serial.
#[unsafe(no_mangle)]
pub extern "C" fn mis_router_beacon(
    state: &mut [u8],
    clock: u64,
    serial: u16,
    out: &mut [u8],
    to: &mut [u8; 6],
) -> u32
    ensures { RouterLeaves state.old out.old to.old (beaconed (router_from state.old) clock serial out.old) result state.new out.new to.new }
{
    lentrouter::beacon(state, clock, serial, out, to)
}

// A request of the node at `from`.
#[unsafe(no_mangle)]
pub extern "C" fn mis_router_request(
    state: &mut [u8],
    clock: u64,
    from: &[u8; 6],
    message: &[u8],
    out: &mut [u8],
    to: &mut [u8; 6],
) -> u32
    ensures { RouterLeaves state.old out.old to.old (requested (router_from state.old) clock from.now message.now out.old) result state.new out.new to.new }
{
    lentrouter::request(state, clock, from, message, out, to)
}

// A reply of the server.
#[unsafe(no_mangle)]
pub extern "C" fn mis_router_reply(
    state: &mut [u8],
    clock: u64,
    message: &[u8],
    out: &mut [u8],
    to: &mut [u8; 6],
) -> u32
    ensures { RouterLeaves state.old out.old to.old (replied (router_from state.old) clock message.now out.old) result state.new out.new to.new }
{
    lentrouter::reply(state, clock, message, out, to)
}

// Closes the session with the node at an address.
#[unsafe(no_mangle)]
pub extern "C" fn mis_router_close(
    state: &mut [u8],
    clock: u64,
    node: &[u8; 6],
    out: &mut [u8],
    to: &mut [u8; 6],
) -> u32
    ensures { RouterLeaves state.old out.old to.old (closing (router_from state.old) clock node.now out.old) result state.new out.new to.new }
{
    lentrouter::close(state, clock, node, out, to)
}

// A terminating message of the node at `from`.
#[unsafe(no_mangle)]
pub extern "C" fn mis_router_closed(
    state: &mut [u8],
    clock: u64,
    from: &[u8; 6],
    message: &[u8],
) -> u32
    ensures { RouterEnds state.old (closed (router_from state.old) clock from.now message.now) result state.new }
{
    lentrouter::closed(state, clock, from, message)
}

// The taken places as one word, place 0 lowest.
#[unsafe(no_mangle)]
pub extern "C" fn mis_router_taken(state: &[u8]) -> u64
    ensures { result ≡ asked router_size state.now (word_of (router_from state.now).places) }
{
    lentrouter::taken(state)
}

// How many places are taken.
#[unsafe(no_mangle)]
pub extern "C" fn mis_router_count(state: &[u8]) -> u32
    ensures { result ≡ asked router_size state.now (count_of (router_from state.now).places) }
{
    lentrouter::count(state)
}
