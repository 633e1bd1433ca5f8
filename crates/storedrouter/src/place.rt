// A place of a router, its attempt and its session.
ghost use Rattle.std.specs.Prelude.{◌≡◌};
ghost use Rattle.storedrouter.specs.Place.{attempt_from, attempt_bytes, session_from, session_bytes, place_from, place_bytes};

use laid::stored::{Stored, read};
use octets::number::part;
use octets::put::put_bytes;
use places::place::{Attempt, Place, Session};

// How many bytes a place has.
pub const SIZE: usize = 89;

// The attempt that a byte string holds.
#[tactic(auto, unfolding(crate::specs::Place::attempt_from))]
fn attempt_from(s: &[u8]) -> Attempt
    ensures { result ≡ attempt_from s.now }
{
    Attempt {
        waiting: read(s, 0),
        stamp: read(s, 1),
        check: read(s, 9),
    }
}

// The bytes of an attempt.
fn attempt_bytes(a: Attempt) -> [u8; 25]
    ensures { result ≡ attempt_bytes a }
{
    let mut t = [0u8; 25];
    a.waiting.put(&mut t, 0);
    a.stamp.put(&mut t, 1);
    a.check.put(&mut t, 9);
    t
}

// The session that a byte string holds.
#[tactic(auto, unfolding(crate::specs::Place::session_from))]
fn session_from(s: &[u8]) -> Session
    ensures { result ≡ session_from s.now }
{
    Session {
        live: read(s, 0),
        stamp: read(s, 1),
        check: read(s, 9),
        key: read(s, 25),
        since: read(s, 41),
    }
}

// The bytes of a session.
fn session_bytes(v: Session) -> [u8; 49]
    ensures { result ≡ session_bytes v }
{
    let mut t = [0u8; 49];
    v.live.put(&mut t, 0);
    v.stamp.put(&mut t, 1);
    v.check.put(&mut t, 9);
    v.key.put(&mut t, 25);
    v.since.put(&mut t, 41);
    t
}

// The place that a byte string holds.
#[tactic(auto, unfolding(crate::specs::Place::place_from))]
pub fn place_from(s: &[u8]) -> Place
    ensures { result ≡ place_from s.now }
{
    Place {
        taken: read(s, 0),
        address: read(s, 1),
        last: read(s, 7),
        attempt: attempt_from(part(s, 15, 25)),
        session: session_from(part(s, 40, 49)),
    }
}

// The bytes of a place.
pub fn place_bytes(p: Place) -> [u8; SIZE]
    ensures { result ≡ place_bytes p }
{
    let mut t = [0u8; SIZE];
    p.taken.put(&mut t, 0);
    p.address.put(&mut t, 1);
    p.last.put(&mut t, 7);
    put_bytes(&mut t, 15, &attempt_bytes(p.attempt));
    put_bytes(&mut t, 40, &session_bytes(p.session));
    t
}
