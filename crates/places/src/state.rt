// Settings and state of a router; setup; the report.
ghost use Rattle.std.specs.Prelude.{◌≡◌};
ghost use Rattle.places.specs.State.{lapsed_at, is_for, find_of, word_of, report_of, lowest_free, fresh_router, set_up_router, numbers_in_range, strings_in_range, settings_in_range};

use crate::place::{Place, place_at};
use held::{Held, hold};
use octets::range::is_within;
use position::Position;
use refusal::Refusal;

// What a router is set up with. Of the groups, four bytes each, the first `grouped` count.
#[derive(Clone, Copy)]
pub struct Settings {
    pub window: u32,
    pub unit: u32,
    pub lifetime: u16,
    pub network: u16,
    pub address: [u8; 6],
    pub ipv4: [u8; 4],
    pub secret: Held,
    pub position: Position,
    pub interval: u16,
    pub groups: [u8; Settings::GROUP_BYTES],
    pub grouped: usize,
}

impl Settings {
    // At most 16 groups, four bytes each.
    pub const GROUP_BYTES: usize = 64;
}

// The state of a router: what it was set up with, the stored clock, and its places.
#[derive(Clone, Copy)]
pub struct Router {
    pub settings: Settings,
    pub clock: u64,
    pub places: [Place; Place::COUNT],
}

// The taken places: one 64-bit word, place 0 lowest, and the number of ones.
#[derive(Drop)]
pub struct Report {
    pub word: u64,
    pub count: u32,
}

// The clock is stored, and what has lapsed goes.
pub fn lapse(r: Router, now: u64) -> Router
    ensures { result ≡ lapsed_at now r }
{
    let mut q = r;
    for i in 0..Place::COUNT {
        let p = q.places[i];
        if p.taken {
            q.places[i] = place_at(
                p,
                now,
                r.settings.window,
                r.settings.lifetime,
                r.settings.unit,
            );
        }
    }
    q.clock = now;
    q
}

// Whether a place is taken for an address.
#[tactic(auto, using(crate::proofs::FindLaws::equal_same))]
fn is_for(p: Place, address: [u8; 6]) -> bool
    ensures { result ≡ is_for address p }
{
    p.taken && p.address == address
}

// The place of an address: the lowest that is taken for it.
#[tactic(auto, using(crate::proofs::FindLaws::rest_here, crate::proofs::FindLaws::rest_next, crate::proofs::FindLaws::rest_none))]
pub fn find(r: Router, address: [u8; 6]) -> Option<usize>
    ensures { result ≡ find_of r.places address }
{
    for i in 0..Place::COUNT {
        if is_for(r.places[i], address) {
            return Some(i);
        }
    }
    None
}

// The occupancy word.
#[tactic(auto, using(crate::proofs::WordLaws::word_turn))]
fn occupancy(r: Router) -> u64
    ensures { result ≡ word_of r.places }
{
    let mut word: u64 = 0;
    for i in (0..Place::COUNT).rev() {
        word = (word << 1) | u64::from(r.places[i].taken);
    }
    word
}

// The lowest free place; 64 where there is none.
pub fn free_place(r: Router) -> usize
    ensures { result ≡ lowest_free r.places }
{
    u64::trailing_zeros(!occupancy(r)) as usize
}

// The report of the taken places.
#[tactic(auto, using(crate::proofs::WordLaws::count_ones))]
pub fn taken(r: Router) -> Report
    ensures { result ≡ report_of r.places }
{
    let word = occupancy(r);
    Report {
        word,
        count: u64::count_ones(word),
    }
}

// A router with these settings, a fresh clock and fresh places.
#[tactic(auto, unfolding(crate::specs::State::fresh_router))]
fn fresh_router(settings: Settings) -> Router
    ensures { result ≡ fresh_router settings }
{
    let p = Place::fresh();
    Router {
        settings,
        clock: 0,
        places: [p; Place::COUNT],
    }
}

// Numbers in the ranges of the paper, 'Router settings'.
#[tactic(auto, unfolding(crate::specs::State::numbers_in_range))]
fn numbers_in_range(w: u64, u: u64, l: u64, network: u64, interval: u64) -> bool
    ensures { result ≡ numbers_in_range w u l network interval }
{
    if !is_within(1, 4294967295, w) {
        return false;
    }
    if !is_within(1, 4294967295, u) {
        return false;
    }
    if !is_within(1, 65535, l) {
        return false;
    }
    if network <= 65535 {
        interval <= 65535
    } else {
        false
    }
}

// The secret has 1 to 253 bytes, and the groups are at most 16, of four bytes each.
#[tactic(auto, unfolding(crate::specs::State::strings_in_range))]
fn strings_in_range(secret: &[u8], groups: &[u8]) -> bool
    ensures { result ≡ strings_in_range secret.now groups.now }
{
    if !is_within(1, Held::MOST as u64, secret.len() as u64) {
        return false;
    }
    if groups.len() <= Settings::GROUP_BYTES {
        groups.len() % 4 == 0
    } else {
        false
    }
}

// The numbers are in their ranges, the position is one that a message can say, and secret and groups are in their ranges.
#[tactic(auto, unfolding(crate::specs::State::settings_in_range))]
fn settings_in_range(
    w: u64,
    u: u64,
    l: u64,
    network: u64,
    secret: &[u8],
    position: Position,
    interval: u64,
    groups: &[u8],
) -> bool
    ensures { result ≡ settings_in_range w u l network secret.now position interval groups.now }
{
    if !numbers_in_range(w, u, l, network, interval) {
        return false;
    }
    if !position::in_range(position) {
        return false;
    }
    strings_in_range(secret, groups)
}

// Setup: every setting in its range, or 18 and nothing is made. Groups are four bytes each.
#[tactic(auto, using(crate::proofs::SetUpLaws::settings_in_range_law), unfolding(crate::specs::State::set_up_router, crate::specs::State::settings_of))]
pub fn set_up(
    w: u64,
    u: u64,
    l: u64,
    network: u64,
    address: [u8; 6],
    ipv4: [u8; 4],
    secret: &[u8],
    position: Position,
    interval: u64,
    groups: &[u8],
) -> Result<Router, Refusal>
    ensures { result ≡ set_up_router w u l network address ipv4 secret.now position interval groups.now }
{
    if !settings_in_range(w, u, l, network, secret, position, interval, groups) {
        return Err(Refusal::OutOfRange);
    }
    let settings = Settings {
        window: w as u32,
        unit: u as u32,
        lifetime: l as u16,
        network: network as u16,
        address,
        ipv4,
        secret: hold(secret),
        position,
        interval: interval as u16,
        groups: octets::put::fitted::<64>(groups),
        grouped: groups.len() / 4,
    };
    Ok(fresh_router(settings))
}
