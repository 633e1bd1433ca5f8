// A lent buffer changed where it stands; one of another size than a state has stays as it was.
ghost use Rattle.std.specs.Prelude.{◌≡◌, ◌+◌, ◌≤◌, length, take, drop};
ghost use Rattle.octets.specs.Put.{put_in};
ghost use Rattle.places.specs.State.{lapsed_at};
ghost use Rattle.storedrouter.specs.Router.{router_from};
ghost use Rattle.turn.specs.Outcome.{with_place};
ghost use Rattle.inplace.specs.Change.{Holds, blanked, lapsed_bytes};

use clock::{over, stale};
use laid::field::flag;
use octets::number::{number16, number32, number64};
use octets::put::{put_bytes, put_number};
use places::place::Place;
use storedrouter::place;
use storedrouter::place::place_bytes;
use storedrouter::router_state::{CLOCK, PLACES, SIZE};

// Puts place i; past the last place nothing changes.
#[tactic(auto, using(crate::proofs::PlacedLaws::put_nothing_holds, crate::proofs::HoldsLaws::holds_other))]
pub fn put_place(state: &mut [u8], i: usize, p: Place)
    ensures { Holds state.old state.new (with_place i p (router_from state.old)) }
{
    if state.len() == SIZE && i < Place::COUNT {
        let place = place_bytes(p);
        put_bytes(state, PLACES + i * place::SIZE, &place);
    }
}

// Zeros in the place of n bytes, where a test holds.
#[tactic(auto, using(octets::proofs::NumberLaws::bytes_zero), unfolding(crate::specs::Change::blanked))]
fn blank(state: &mut [u8], goes: bool, at: usize, n: usize)
    ensures { state.new ≡ blanked goes at n state.old }
{
    if goes {
        put_number(state, at, n, 0);
    }
}

// What has lapsed goes from the place at an offset.
#[tactic(auto, using(crate::proofs::OneLapseLaws::free_stays))]
fn lapse_place(state: &mut [u8], at: usize, clock: u64, window: u32, lifetime: u16, unit: u32)
    requires { at + 89 ≤ length state.old }
    ensures { state.new ≡ put_in state.old at (lapsed_bytes clock window lifetime unit (take 89 (drop at state.old))) }
{
    if !flag(state, at) {
        return;
    }
    let attempt = stale(clock, number64(state, at + 16), window);
    blank(state, attempt, at + 15, 25);
    let session = over(clock, number64(state, at + 81), lifetime, unit);
    blank(state, session, at + 40, 49);
    if flag(state, at + 40) {
        return;
    }
    let last = stale(clock, number64(state, at + 7), window);
    blank(state, last, at, place::SIZE);
}

// The clock is stored, and what has lapsed goes.
#[tactic(auto, using(crate::proofs::HoldsLaws::holds_other))]
pub fn lapse(state: &mut [u8], clock: u64)
    ensures { Holds state.old state.new (lapsed_at clock (router_from state.old)) }
{
    if state.len() == SIZE {
        let window = number32(state, 0);
        let unit = number32(state, 4);
        let lifetime = number16(state, 8);
        for i in 0..Place::COUNT {
            lapse_place(
                state,
                PLACES + i * place::SIZE,
                clock,
                window,
                lifetime,
                unit,
            );
        }
        put_number(state, CLOCK, 8, clock);
    }
}
