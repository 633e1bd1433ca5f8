// Reports: the taken places, each place, and a node's state.
ghost use Rattle.told.specs.Print.{Puts};
ghost use Rattle.told.specs.Report.{attempt_text, session_text, place_text, places_text, taken_text, used_text, waiting_text, open_text, node_text};

use crate::printing::{next_decimal, next_hex, next_none, put, put_decimal};
use node::{Node, Waiting};
use places::place::{Attempt, Place, Session};
use places::state::Router;
use turn::one_place::place_of;

// The word of the taken places, and how many they are.
pub fn put_taken(text: &mut [u8], at: usize, router: Router) -> usize
    ensures { Puts (taken_text router) text.old at text.new result }
{
    let report = places::state::taken(router);
    let word = put_decimal(text, at, report.word);
    let count = next_decimal(text, word, report.count as u64);
    put(text, count, b"\n")
}

// The stamp and the check value of an attempt, or `-`.
fn put_attempt(text: &mut [u8], at: usize, a: Attempt) -> usize
    ensures { Puts (attempt_text a) text.old at text.new result }
{
    if !a.waiting {
        return next_none(text, at);
    }
    let stamp = next_decimal(text, at, a.stamp);
    next_hex(text, stamp, &a.check)
}

// The stamp, check value and key of a session, and since when it is open, or `-`.
fn put_session(text: &mut [u8], at: usize, s: Session) -> usize
    ensures { Puts (session_text s) text.old at text.new result }
{
    if !s.live {
        return next_none(text, at);
    }
    let stamp = next_decimal(text, at, s.stamp);
    let check = next_hex(text, stamp, &s.check);
    let key = next_hex(text, check, &s.key);
    next_decimal(text, key, s.since)
}

// A place's number, address, last stamp, attempt and session; nothing where it is free.
fn put_place(text: &mut [u8], at: usize, i: usize, p: Place) -> usize
    ensures { Puts (place_text i p) text.old at text.new result }
{
    if !p.taken {
        return at;
    }
    let number = put_decimal(text, at, i as u64);
    let address = next_hex(text, number, &p.address);
    let last = next_decimal(text, address, p.last);
    let attempt = put_attempt(text, last, p.attempt);
    let session = put_session(text, attempt, p.session);
    put(text, session, b"\n")
}

// A line for each taken place.
pub fn put_places(text: &mut [u8], at: usize, router: Router) -> usize
    ensures { Puts (places_text 64 router) text.old at text.new result }
{
    let mut next = at;
    for i in 0..Place::COUNT {
        next = put_place(text, next, i, place_of(router, i));
    }
    next
}

// The used stamp, or `-`.
fn put_used(text: &mut [u8], at: usize, u: Option<u64>) -> usize
    ensures { Puts (used_text u) text.old at text.new result }
{
    match u {
        None => next_none(text, at),
        Some(stamp) => next_decimal(text, at, stamp),
    }
}

// The waiting stamp, or `-`.
fn put_waiting(text: &mut [u8], at: usize, w: Waiting) -> usize
    ensures { Puts (waiting_text w) text.old at text.new result }
{
    if w.live {
        next_decimal(text, at, w.stamp)
    } else {
        next_none(text, at)
    }
}

// The stamp and the key of a node's session, since when it is open, and its lifetime, or `-`.
fn put_open(text: &mut [u8], at: usize, s: node::Session) -> usize
    ensures { Puts (open_text s) text.old at text.new result }
{
    if !s.live {
        return next_none(text, at);
    }
    let stamp = next_decimal(text, at, s.stamp);
    let key = next_hex(text, stamp, &s.key);
    let since = next_decimal(text, key, s.since);
    next_decimal(text, since, s.lifetime as u64)
}

// A node's clock, used stamp, waiting stamp and session.
pub fn put_node(text: &mut [u8], at: usize, n: Node) -> usize
    ensures { Puts (node_text n) text.old at text.new result }
{
    let clock = put_decimal(text, at, n.clock);
    let used = put_used(text, clock, n.used);
    let waiting = put_waiting(text, used, n.waiting);
    let session = put_open(text, waiting, n.session);
    put(text, session, b"\n")
}
