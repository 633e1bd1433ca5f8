// Terminating messages: the router writes one, and one arrives.
ghost use Rattle.std.specs.Prelude.{◌≡◌, []};
ghost use Rattle.misp.specs.Terminating.{terminating_from};
ghost use Rattle.places.specs.State.{find_of};
ghost use Rattle.refusal.specs.Step.{Leaves};
ghost use Rattle.router.specs.Close.{closed_place, closing, in_session, closed_at, closed_now, closed};
ghost use Rattle.router.specs.Parts.{place_number, TurnsFor, closing_now};

use misp::terminating::Terminating;
use object::family::Family;
use places::place::{Place, Session, kept};
use places::state::{Router, Settings};
use refusal::{Outcome, Refusal, To, refused, silent, written};
use turn::one_place::{place_of, turned};

// The session closes; address, last stamp and a waiting attempt stay.
fn closed_place(p: Place) -> Place
    ensures { result ≡ closed_place p }
{
    kept(p, p.attempt, Session::none())
}

// Whether a stamp is that of a session.
fn is_session(session: Session, stamp: u64) -> bool
    ensures { result ≡ in_session session stamp }
{
    session.live && stamp == session.stamp
}

// The number of the place that an address has; past the last one where it has none.
pub fn place_number(w: Option<usize>) -> usize
    ensures { result ≡ place_number w }
{
    w.unwrap_or(Place::COUNT)
}

// A message of ours closes the session of the place that an address has: 20, 21.
pub fn close_turn(settings: Settings, p: Place, to: [u8; 6], out: &mut [u8]) -> Outcome<Place>
    ensures { TurnsFor settings to p (λ q. closing_now q to out.old) result out.new }
{
    if out.len() < Family::Misp.limit() {
        return refused(Refusal::SmallOutput, p);
    }
    if !p.session.live {
        return refused(Refusal::NotExpected, p);
    }
    let w = checked::write_terminating(out, &p.session.key, settings.address, to, p.session.stamp);
    written(w, Ok(()), p, closed_place(p), To::Address(to))
}

// Closes the session with a node: 20, 7, 21.
pub fn close(r: Router, clock: u64, to: [u8; 6], out: &mut [u8]) -> Outcome<Router>
    ensures { Leaves (closing r clock to out.old) result out.new }
{
    if out.len() < Family::Misp.limit() {
        return refused(Refusal::SmallOutput, r);
    }
    if clock < r.clock {
        return refused(Refusal::ClockBack, r);
    }
    let q = places::state::lapse(r, clock);
    let i = place_number(places::state::find(q, to));
    let t = close_turn(q.settings, place_of(q, i), to, out);
    turned(q, i, t)
}

// What a terminating message that was read does with the place that an address has: 8, 21, 17, then the session closes.
fn close_by(settings: Settings, p: Place, from: [u8; 6], m: &[u8], v: Terminating) -> Outcome<Place>
    ensures { TurnsFor settings from p (λ q. closed_at (find_of q.places from) q from m.now (terminating_from m.now v)) result [] }
{
    match checked::under_key(
        v.s,
        is_session(p.session, v.stamp),
        p.session.key,
        m,
        from,
        settings.address,
        v.check,
    ) {
        Err(why) => refused(why, p),
        Ok(()) => silent(Ok(()), closed_place(p)),
    }
}

// A terminating message arrives from an address that has this place: 1 to 6, then what it does.
pub fn closed_turn(settings: Settings, p: Place, from: [u8; 6], m: &[u8]) -> Outcome<Place>
    ensures { TurnsFor settings from p (λ q. closed_now q from m.now) result [] }
{
    match misp::terminating::read_terminating(m) {
        Err(why) => refused(why, p),
        Ok(v) => close_by(settings, p, from, m, v),
    }
}

// A terminating message arrives: 7, 1 to 6, 8, 21, 17.
pub fn closed(r: Router, clock: u64, from: [u8; 6], m: &[u8]) -> Outcome<Router>
    ensures { result ≡ (closed r clock from m.now).outcome }
{
    if clock < r.clock {
        return refused(Refusal::ClockBack, r);
    }
    let q = places::state::lapse(r, clock);
    let i = place_number(places::state::find(q, from));
    let t = closed_turn(q.settings, place_of(q, i), from, m);
    turned(q, i, t)
}
