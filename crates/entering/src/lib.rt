// A node's request at a router: the access request goes out, or the success once more, or a failure (the paper, 'Steps').
#![tactic(auto)]

mod asking; // what goes out

ghost use Rattle.std.specs.Prelude.{◌≡◌, length};
ghost use Rattle.octets.specs.Choice.{both};
ghost use Rattle.terms.specs.Terms.{lists, is_one_type};
ghost use Rattle.octets.specs.Part.{bytes_at};
ghost use Rattle.misp.specs.Request.{request_from};
ghost use Rattle.places.specs.State.{find_of};
ghost use Rattle.refusal.specs.Step.{Leaves};
ghost use Rattle.turn.specs.OnePlace.{Turns};
ghost use Rattle.entering.specs.Request.{same_request, repeats_attempt, repeats_session, place_with, known, by_place, judged, requested};
ghost use Rattle.entering.specs.Seated.{seat_number, seat_of, requested_now, Seated};
ghost use Rattle.entering.specs.Parts.{Judges, Asks, AsksAt};

use crate::asking::{ask, fail};
use message::field::sixteen_at;
use misp::request::Request;
use object::family::Family;
use places::place::{Attempt, Place, Session};
use places::state::{Router, Settings};
use refusal::{Outcome, Refusal, To, refused, written};
use turn::one_place::{place_of, turned};
use turn::parts::write_success;

// The reasons of the failures that refusals 9, 10, 12 and 14 send (document 000, 4.4.11; DECISIONS, 5).
const TYPE_REASON: u16 = 130;

const NETWORK_REASON: u16 = 130;

const OLD_REASON: u16 = 1;

const FULL_REASON: u16 = 129;

// The place that a request is judged at: its sender's, else the lowest free one; where none is free, the number that was given for it.
#[derive(Clone, Copy, Debug, PartialEq, Eq, Hash)]
pub enum Seat {
    Known(usize),
    Free(usize),
    Full(usize),
}

impl Seat {
    // The number of the place; where none is free, the number that was given for it.
    pub fn number(self) -> usize
        ensures { result ≡ seat_number self }
    {
        match self {
            Seat::Known(i) => i,
            Seat::Free(i) => i,
            Seat::Full(i) => i,
        }
    }
}

// Whether a request is that of an attempt or a session that is there: the same stamp and check value.
fn is_again(m: &[u8], v: Request, live: bool, stamp: u64, check: [u8; 16]) -> bool
    ensures { result ≡ both live (same_request (request_from m.now v) stamp check) }
{
    live && v.stamp == stamp && octets::same::same(octets::part::bytes_at(m, v.check), &check)
}

// The request of the waiting attempt again.
#[tactic(auto, unfolding(crate::specs::Request::repeats_attempt))]
fn repeats_attempt(m: &[u8], v: Request, p: Place) -> bool
    ensures { result ≡ repeats_attempt (request_from m.now v) p }
{
    is_again(m, v, p.attempt.waiting, p.attempt.stamp, p.attempt.check)
}

// The request of the open session again.
#[tactic(auto, unfolding(crate::specs::Request::repeats_session))]
fn repeats_session(m: &[u8], v: Request, p: Place) -> bool
    ensures { result ≡ repeats_session (request_from m.now v) p }
{
    is_again(m, v, p.session.live, p.session.stamp, p.session.check)
}

// A place whose attempt and last stamp are the request's.
fn place_with(address: [u8; 6], m: &[u8], v: Request, session: Session) -> Place
    requires { length (bytes_at m.now v.check) ≡ 16 }
    ensures { result ≡ place_with address (request_from m.now v) session }
{
    let check = sixteen_at(m, v.check);
    let attempt = Attempt {
        waiting: true,
        stamp: v.stamp,
        check,
    };
    Place {
        taken: true,
        address,
        last: v.stamp,
        attempt,
        session,
    }
}

// A place for the node: a repeat gets what it got, else 13, else the request becomes its attempt.
fn place_known(
    settings: Settings,
    p: Place,
    i: usize,
    from: [u8; 6],
    m: &[u8],
    v: Request,
    out: &mut [u8],
) -> Outcome<Place>
    requires { AsksAt i m.now v out.old }
    ensures { Turns settings i p (λ q. known q i from m.now (request_from m.now v) out.old) result out.new }
{
    if repeats_attempt(m, v, p) {
        return ask(settings, p, p, i, from, m, v, out);
    }
    if repeats_session(m, v, p) {
        let w = write_success(settings, from, p.session, out);
        return written(w, Ok(()), p, p, To::Address(from));
    }
    if v.stamp <= p.last {
        return refused(Refusal::StampUsed, p);
    }
    let after = place_with(p.address, m, v, p.session);
    ask(settings, p, after, i, from, m, v, out)
}

// A place for the node, or the lowest free one, or 14.
fn place_for(
    settings: Settings,
    seat: Seat,
    p: Place,
    from: [u8; 6],
    m: &[u8],
    v: Request,
    out: &mut [u8],
) -> Outcome<Place>
    requires { Asks m.now v out.old }
    ensures { Seated settings seat p from (λ q. by_place (find_of q.places from) q from m.now (request_from m.now v) out.old) result out.new }
{
    match seat {
        Seat::Known(i) if i < Place::COUNT => place_known(settings, p, i, from, m, v, out),
        Seat::Free(i) if i < Place::COUNT => {
            let after = place_with(from, m, v, Session::none());
            ask(settings, p, after, i, from, m, v, out)
        }
        _ => fail(Refusal::NoPlace, FULL_REASON, p, from, m, v, out),
    }
}

// Whether the security list is one number, 2 or 3.
fn is_one_type(m: &[u8], v: Request) -> bool
    ensures { result ≡ is_one_type (bytes_at m.now v.security) }
{
    terms::is_one_type(octets::part::bytes_at(m, v.security))
}

// Whether a network number is in the list.
fn is_listed(m: &[u8], v: Request, network: u16) -> bool
    ensures { result ≡ lists network (bytes_at m.now v.layers) }
{
    terms::is_listed(octets::part::bytes_at(m, v.layers), network)
}

// 8 to 14.
fn judge(
    settings: Settings,
    seat: Seat,
    p: Place,
    clock: u64,
    from: [u8; 6],
    m: &[u8],
    v: Request,
    out: &mut [u8],
) -> Outcome<Place>
    requires { Judges m.now v out.old }
    ensures { Seated settings seat p from (λ q. judged q clock from m.now (request_from m.now v) out.old) result out.new }
{
    if v.s {
        return refused(Refusal::OtherKey, p);
    }
    if !is_one_type(m, v) {
        return fail(Refusal::SecurityType, TYPE_REASON, p, from, m, v, out);
    }
    if !is_listed(m, v, settings.network) {
        return fail(Refusal::NetworkNumber, NETWORK_REASON, p, from, m, v, out);
    }
    if clock::ahead(clock, v.stamp) {
        return refused(Refusal::StampAhead, p);
    }
    if clock::stale(clock, v.stamp, settings.window) {
        return fail(Refusal::StampOld, OLD_REASON, p, from, m, v, out);
    }
    place_for(settings, seat, p, from, m, v, out)
}

// A request of a node at its seat, p being the place there: 20, 1 to 6, 8 to 14.
pub fn turn_at(
    settings: Settings,
    seat: Seat,
    p: Place,
    clock: u64,
    from: [u8; 6],
    m: &[u8],
    out: &mut [u8],
) -> Outcome<Place>
    ensures { Seated settings seat p from (λ q. requested_now q clock from m.now out.old) result out.new }
{
    if out.len() < Family::Misauth.limit() {
        return refused(Refusal::SmallOutput, p);
    }
    let v = match misp::request::read_request(m) {
        Err(why) => return refused(why, p),
        Ok(v) => v,
    };
    judge(settings, seat, p, clock, from, m, v, out)
}

// The seat of a sender: where it was found, else the lowest free place.
pub fn seat_of(found: Option<usize>, free: usize) -> Seat
    ensures { result ≡ seat_of found free }
{
    match found {
        Some(i) => Seat::Known(i),
        None => {
            if free < Place::COUNT {
                Seat::Free(free)
            } else {
                Seat::Full(free)
            }
        }
    }
}

// A request of a node: 20, 7, 1 to 6, 8 to 14.
pub fn request(r: Router, clock: u64, from: [u8; 6], m: &[u8], out: &mut [u8]) -> Outcome<Router>
    ensures { Leaves (requested r clock from m.now out.old) result out.new }
{
    if out.len() < Family::Misauth.limit() {
        return refused(Refusal::SmallOutput, r);
    }
    if clock < r.clock {
        return refused(Refusal::ClockBack, r);
    }
    let q = places::state::lapse(r, clock);
    let seat = seat_of(places::state::find(q, from), places::state::free_place(q));
    let i = seat.number();
    let t = turn_at(q.settings, seat, place_of(q, i), clock, from, m, out);
    turned(q, i, t)
}
