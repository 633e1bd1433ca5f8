// The calls on a router over buffers that the caller lends: a state as bytes, of the size that the library tells, an output, an address; one number
// comes back. The state is changed where it stands: what has lapsed goes, and then a call sees and puts the one place that it is about.
#![tactic(auto)]

mod beginning; // how a call begins
mod ending; // how a call ends

ghost use Rattle.std.specs.Prelude.{◌≡◌};
ghost use Rattle.position.specs.Position.{position_of};
ghost use Rattle.places.specs.State.{set_up_router, word_of, count_of};
ghost use Rattle.router.specs.Beacon.{beaconed};
ghost use Rattle.entering.specs.Request.{requested};
ghost use Rattle.settling.specs.Reply.{replied};
ghost use Rattle.router.specs.Close.{closing, closed};
ghost use Rattle.storedrouter.specs.Router.{router_from, router_size};
ghost use Rattle.shell.specs.Shell.{asked};
ghost use Rattle.lentrouter.specs.Router.{RouterLeaves, RouterEnds, RouterSetsUp};

use crate::beginning::begin;
use crate::ending::end_turn;
use handed::{MISUSE, coded, wrote};
use inplace::reading::{find, free_place, place_of};
use object::family::Family;
use octets::put::put_bytes;
use places::state::Report;
use refusal::To;
use storedrouter::router_state::{SIZE, bytes};

// Sets a router up; after 18 the state stays as it was.
pub fn set_up(
    state: &mut [u8],
    window: u64,
    unit: u64,
    lifetime: u64,
    network: u64,
    address: &[u8; 6],
    ipv4: &[u8; 4],
    secret: &[u8],
    position: &[u8; 12],
    interval: u64,
    groups: &[u8],
) -> u32
    ensures { RouterSetsUp state.old (set_up_router window unit lifetime network address.now ipv4.now secret.now (position_of position.now) interval groups.now) result state.new }
{
    if state.len() != SIZE {
        return MISUSE;
    }
    let place = position::read(position);
    let made = places::state::set_up(
        window, unit, lifetime, network, *address, *ipv4, secret, place, interval, groups,
    );
    match made {
        Err(why) => coded(Err(why), To::Nobody, 0),
        Ok(router) => {
            put_bytes(state, 0, &bytes(router));
            coded(Ok(()), To::Nobody, 0)
        }
    }
}

// The router's beacon, with the clock as stamp and the caller's serial.
pub fn beacon(state: &mut [u8], clock: u64, serial: u16, out: &mut [u8], to: &mut [u8; 6]) -> u32
    ensures { RouterLeaves state.old out.old to.old (beaconed (router_from state.old) clock serial out.old) result state.new out.new to.new }
{
    if let Err(stop) = begin(state, clock, out.len(), Family::Misp.limit()) {
        return stop;
    }
    let settings = inplace::reading::settings(state);
    let w = router::beacon::write_beacon(settings, clock, serial, out);
    wrote(w, To::Everyone)
}

// A request of the node at `from`.
pub fn request(
    state: &mut [u8],
    clock: u64,
    from: &[u8; 6],
    message: &[u8],
    out: &mut [u8],
    to: &mut [u8; 6],
) -> u32
    ensures { RouterLeaves state.old out.old to.old (requested (router_from state.old) clock from.now message.now out.old) result state.new out.new to.new }
{
    if let Err(stop) = begin(state, clock, out.len(), Family::Misauth.limit()) {
        return stop;
    }
    let settings = inplace::reading::settings(state);
    let seat = entering::seat_of(find(state, *from), free_place(state));
    let at = seat.number();
    let p = place_of(state, at);
    let t = entering::turn_at(settings, seat, p, clock, *from, message, out);
    end_turn(t, at, state, to)
}

// A reply of the server.
pub fn reply(state: &mut [u8], clock: u64, message: &[u8], out: &mut [u8], to: &mut [u8; 6]) -> u32
    ensures { RouterLeaves state.old out.old to.old (replied (router_from state.old) clock message.now out.old) result state.new out.new to.new }
{
    if let Err(stop) = begin(state, clock, out.len(), Family::Misp.limit()) {
        return stop;
    }
    let settings = inplace::reading::settings(state);
    let i = octets::number::byte_at(message, 1) as usize;
    let p = place_of(state, i);
    let t = settling::turn_at(settings, p, clock, message, out);
    end_turn(t, i, state, to)
}

// Closes the session with the node at an address.
pub fn close(state: &mut [u8], clock: u64, node: &[u8; 6], out: &mut [u8], to: &mut [u8; 6]) -> u32
    ensures { RouterLeaves state.old out.old to.old (closing (router_from state.old) clock node.now out.old) result state.new out.new to.new }
{
    if let Err(stop) = begin(state, clock, out.len(), Family::Misp.limit()) {
        return stop;
    }
    let settings = inplace::reading::settings(state);
    let i = router::close::place_number(find(state, *node));
    let p = place_of(state, i);
    let t = router::close::close_turn(settings, p, *node, out);
    end_turn(t, i, state, to)
}

// A terminating message of the node at `from`.
pub fn closed(state: &mut [u8], clock: u64, from: &[u8; 6], message: &[u8]) -> u32
    ensures { RouterEnds state.old (closed (router_from state.old) clock from.now message.now) result state.new }
{
    if let Err(stop) = begin(state, clock, 0, 0) {
        return stop;
    }
    let settings = inplace::reading::settings(state);
    let i = router::close::place_number(find(state, *from));
    let p = place_of(state, i);
    let t = router::close::closed_turn(settings, p, *from, message);
    let mut nowhere = [0u8; 6];
    end_turn(t, i, state, &mut nowhere)
}

// The report of the taken places; in a buffer of another size none is.
fn reported(state: &[u8]) -> Report
    ensures { (result.word ≡ asked router_size state.now (word_of (router_from state.now).places)) × (result.count ≡ asked router_size state.now (count_of (router_from state.now).places)) }
{
    if state.len() != SIZE {
        return Report { word: 0, count: 0 };
    }
    inplace::reading::taken(state)
}

// The taken places as one word, place 0 lowest.
pub fn taken(state: &[u8]) -> u64
    ensures { result ≡ asked router_size state.now (word_of (router_from state.now).places) }
{
    reported(state).word
}

// How many places are taken.
pub fn count(state: &[u8]) -> u32
    ensures { result ≡ asked router_size state.now (count_of (router_from state.now).places) }
{
    reported(state).count
}
