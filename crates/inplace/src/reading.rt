// What a lent buffer holds, read where it stands; what is missing counts as zeros.
ghost use Rattle.std.specs.Prelude.{◌≡◌, ◌<◌, length};
ghost use Rattle.places.specs.State.{is_for, find_of, word_of, report_of, lowest_free};
ghost use Rattle.storedrouter.specs.Place.{place_from};
ghost use Rattle.storedrouter.specs.Router.{spot, router_from};
ghost use Rattle.turn.specs.Outcome.{place_of};
ghost use Rattle.inplace.specs.Sought.{Sought};

use laid::field::{array_at, flag};
use octets::number::{number, number64, part};
use places::place::Place;
use places::state::{Report, Settings};
use storedrouter::place::place_from;
use storedrouter::router_state::{CLOCK, PLACES};
use storedrouter::settings::settings_from;
use storedrouter::{place, settings};

// The settings of the router.
#[tactic(auto, unfolding(storedrouter::specs::Router::router_from))]
pub fn settings(state: &[u8]) -> Settings
    ensures { result ≡ (router_from state.now).settings }
{
    settings_from(part(state, 0, settings::SIZE))
}

// Its clock.
#[tactic(auto, unfolding(storedrouter::specs::Router::router_from))]
pub fn clock_of(state: &[u8]) -> u64
    ensures { result ≡ (router_from state.now).clock }
{
    number64(state, CLOCK)
}

// Place i; past the last place stands the fresh one.
#[tactic(auto, using(crate::proofs::SpotLaws::router_many, crate::proofs::SpotLaws::router_place), unfolding(turn::specs::Outcome::place_of))]
pub fn place_of(state: &[u8], i: usize) -> Place
    ensures { result ≡ place_of i (router_from state.now) }
{
    if i < Place::COUNT {
        place_from(part(state, PLACES + i * place::SIZE, place::SIZE))
    } else {
        Place::fresh()
    }
}

// The number that the flag of a taken place and the address behind it spell: 1 before six bytes counts 256 to the sixth.
#[tactic(auto, using(octets::proofs::NumberLaws::number_cons, octets::proofs::NumberLaws::number_below))]
fn flag_and(address: &[u8]) -> u64
    requires { length address.now ≡ 6 }
    ensures { Sought address.now result }
{
    281474976710656 + number(address)
}

// Whether place i is taken for an address, in a buffer that may end there: its flag, then the address behind it.
#[tactic(auto, using(crate::proofs::SpotLaws::spot_taken, crate::proofs::SpotLaws::same_behind))]
fn is_for_short(state: &[u8], i: usize, address: [u8; 6]) -> bool
    requires { i < 64 }
    ensures { result ≡ is_for address (place_from (spot i state.now)) }
{
    let at = PLACES + i * place::SIZE;
    flag(state, at) && array_at::<6>(state, at + 1) == address
}

// Whether place i is taken for an address: its first seven bytes are read as one number.
#[tactic(auto, using(crate::proofs::SoughtLaws::sought_found))]
fn is_for(state: &[u8], i: usize, address: [u8; 6], sought: u64) -> bool
    requires { (i < 64) × Sought address sought }
    ensures { result ≡ is_for address (place_from (spot i state.now)) }
{
    let at = PLACES + i * place::SIZE;
    if at + 8 <= state.len() {
        number64(state, at) / 256 == sought
    } else {
        is_for_short(state, i, address)
    }
}

// The place of an address: the lowest that is taken for it.
#[tactic(auto, using(crate::proofs::SpotLaws::router_many, crate::proofs::SpotLaws::router_place, places::proofs::FindLaws::rest_here, places::proofs::FindLaws::rest_next, places::proofs::FindLaws::rest_none))]
pub fn find(state: &[u8], address: [u8; 6]) -> Option<usize>
    ensures { result ≡ find_of (router_from state.now).places address }
{
    let sought = flag_and(&address);
    for i in 0..Place::COUNT {
        if is_for(state, i, address, sought) {
            return Some(i);
        }
    }
    None
}

// Whether place i is taken.
#[tactic(auto, using(crate::proofs::SpotLaws::spot_taken))]
fn taken_at(state: &[u8], i: usize) -> bool
    requires { i < 64 }
    ensures { result ≡ (place_from (spot i state.now)).taken }
{
    flag(state, PLACES + i * place::SIZE)
}

// The occupancy word.
// Stays: this loop, and the two functions over it, stand in `places` too, over a router by value; a trait for both would need a struct around the buffer, two impls
// and a law of 64 places, which is more than the loop.
#[tactic(auto, using(crate::proofs::SpotLaws::router_many, crate::proofs::SpotLaws::router_place, places::proofs::WordLaws::word_turn))]
fn occupancy(state: &[u8]) -> u64
    ensures { result ≡ word_of (router_from state.now).places }
{
    let mut word: u64 = 0;
    for i in (0..Place::COUNT).rev() {
        word = (word << 1) | u64::from(taken_at(state, i));
    }
    word
}

// The lowest free place; 64 where there is none.
pub fn free_place(state: &[u8]) -> usize
    ensures { result ≡ lowest_free (router_from state.now).places }
{
    u64::trailing_zeros(!occupancy(state)) as usize
}

// The report of the taken places.
#[tactic(auto, using(places::proofs::WordLaws::count_ones))]
pub fn taken(state: &[u8]) -> Report
    ensures { result ≡ report_of (router_from state.now).places }
{
    let word = occupancy(state);
    Report {
        word,
        count: u64::count_ones(word),
    }
}
