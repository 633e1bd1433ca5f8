// A reply of the server at a router: it opens a session, or ends the attempt (the paper, 'Steps').
#![tactic(auto)]

ghost use Rattle.std.specs.Prelude.{◌≡◌, ◌≤◌, length, slice_index, Ok};
ghost use Rattle.octets.specs.Same.{same_bytes};
ghost use Rattle.object.specs.declared.family.Family.TheVariants.{Misp};
ghost use Rattle.object.specs.Family.{limit_of};
ghost use Rattle.octets.specs.Part.{bytes_at};
ghost use Rattle.misauth.specs.Accept.{accept_from, read_accept, accept_told};
ghost use Rattle.misauth.specs.Reject.{read_reject, reject_told};
ghost use Rattle.places.specs.declared.state.Router.{Router};
ghost use Rattle.places.specs.declared.state.Settings.{Settings};
ghost use Rattle.refusal.specs.Step.{Leaves};
ghost use Rattle.turn.specs.Outcome.{place_of};
ghost use Rattle.turn.specs.OnePlace.{Turns};
ghost use Rattle.settling.specs.Reply.{settled, opened_by, by_accept, by_reject, awaits, is_reply, answered, replied};
ghost use Rattle.settling.specs.Parts.{replied_now, Opens};

use message::field::sixteen_at;
use misauth::accept::Accept;
use object::family::Family;
use octets::part::Part;
use places::place::{Attempt, Place, Session, kept};
use places::state::{Router, Settings};
use refusal::{Outcome, Refusal, To, refused, written};
use turn::one_place::{place_of, turned};
use turn::parts::write_success;

// The reason of the failure that a reject leads to (document 000, 4.4.11; DECISIONS, 5).
const REJECT_REASON: u16 = 128;

// A place with this session, its attempt ended.
fn settled(p: Place, session: Session) -> Place
    ensures { result ≡ settled p session }
{
    kept(p, Attempt::none(), session)
}

// Whether object 201 is the attempt's check value.
fn is_for(attempt: Attempt, m: &[u8], check: Part) -> bool
    ensures { result ≡ same_bytes (bytes_at m.now check) attempt.check }
{
    octets::same::same(octets::part::bytes_at(m, check), &attempt.check)
}

// The session that an accept opens.
fn opened(settings: Settings, p: Place, clock: u64, m: &[u8], v: Accept) -> Session
    requires { length (bytes_at m.now v.key) ≡ 16 }
    ensures { (q : Router) → q.settings ≡ settings → result ≡ opened_by q p clock (accept_from m.now v) }
{
    // Stays: locals for the arrays; one that is a field or a call's result gets no proof where it is put straight into a literal.
    let check = p.attempt.check;
    let key = icv::mask(settings.secret.as_slice(), check, sixteen_at(m, v.key));
    Session {
        live: true,
        stamp: p.attempt.stamp,
        check,
        key,
        since: clock,
    }
}

// An accept that was read: 15 where object 201 is not the attempt's check value.
fn open(
    settings: Settings,
    p: Place,
    clock: u64,
    m: &[u8],
    v: Accept,
    out: &mut [u8],
) -> Outcome<Place>
    requires { Opens m.now v out.old }
    ensures { Turns settings (slice_index m.now 1) p (λ q. by_accept (Ok (accept_from m.now v)) q (slice_index m.now 1) p clock out.old) result out.new }
{
    if !is_for(p.attempt, m, v.check) {
        return refused(Refusal::NoAttempt, p);
    }
    let session = opened(settings, p, clock, m, v);
    let w = write_success(settings, p.address, session, out);
    written(w, Ok(()), p, settled(p, session), To::Address(p.address))
}

// An accept: 4, 5, 6 are passed on.
fn accept(settings: Settings, p: Place, clock: u64, m: &[u8], out: &mut [u8]) -> Outcome<Place>
    requires { limit_of Misp ≤ length out.old }
    ensures { Turns settings (slice_index m.now 1) p (λ q. by_accept (accept_told m.now (read_accept m.now)) q (slice_index m.now 1) p clock out.old) result out.new }
{
    let v = match misauth::accept::read_accept(m) {
        Err(why) => return refused(why, p),
        Ok(v) => v,
    };
    open(settings, p, clock, m, v, out)
}

// A reject: 4 is passed on (no object of it is mandatory); else the attempt ends, and a failure goes out.
fn reject(p: Place, m: &[u8], out: &mut [u8]) -> Outcome<Place>
    requires { limit_of Misp ≤ length out.old }
    ensures { (settings : Settings) → Turns settings (slice_index m.now 1) p (λ q. by_reject (reject_told m.now (read_reject m.now)) q (slice_index m.now 1) p out.old) result out.new }
{
    if let Err(why) = misauth::reject::read_reject(m) {
        return refused(why, p);
    }
    let w = misp::failure::write_failure(out, p.attempt.stamp, REJECT_REASON);
    written(w, Ok(()), p, settled(p, p.session), To::Address(p.address))
}

// Whether the place with a number has a waiting attempt.
#[tactic(auto, unfolding(crate::specs::Reply::awaits))]
fn awaits(p: Place, i: usize) -> bool
    ensures { (q : Router) → place_of i q ≡ p → result ≡ awaits q i }
{
    i < Place::COUNT && p.taken && p.attempt.waiting
}

// 3: the Code is that of an accept or a reject.
fn is_reply(code: u8) -> bool
    ensures { result ≡ is_reply code }
{
    matches!(code, 2 | 3)
}

// 3, 15 by the Identifier, 16, then the accept or the reject.
fn answer(
    settings: Settings,
    p: Place,
    clock: u64,
    m: &[u8],
    end: usize,
    out: &mut [u8],
) -> Outcome<Place>
    requires { limit_of Misp ≤ length out.old }
    ensures { Turns settings (slice_index m.now 1) p (λ q. answered q clock m.now end out.old) result out.new }
{
    let code = octets::number::byte_at(m, 0);
    let i = octets::number::byte_at(m, 1) as usize;
    if !is_reply(code) {
        return refused(Refusal::OtherCode, p);
    }
    if !awaits(p, i) {
        return refused(Refusal::NoAttempt, p);
    }
    if !authenticator::is_authentic(settings.secret.as_slice(), octets::number::part(m, 0, end)) {
        return refused(Refusal::WrongAuthenticator, p);
    }
    if code == 2 {
        accept(settings, p, clock, m, out)
    } else {
        reject(p, m, out)
    }
}

// A reply at the place whose number is its Identifier: 20, 1, 2, 3, 15 (Identifier), 16, 4, 5, 6, 15 (object 201).
pub fn turn_at(settings: Settings, p: Place, clock: u64, m: &[u8], out: &mut [u8]) -> Outcome<Place>
    ensures { Turns settings (slice_index m.now 1) p (λ q. replied_now q clock m.now out.old) result out.new }
{
    if out.len() < Family::Misp.limit() {
        return refused(Refusal::SmallOutput, p);
    }
    let end = match message::reading::head(m, Family::Misauth) {
        Err(why) => return refused(why, p),
        Ok(end) => end,
    };
    answer(settings, p, clock, m, end, out)
}

// A reply of the server: 20, 7, then the turn of the place whose number is the Identifier.
pub fn reply(r: Router, clock: u64, m: &[u8], out: &mut [u8]) -> Outcome<Router>
    ensures { Leaves (replied r clock m.now out.old) result out.new }
{
    if out.len() < Family::Misp.limit() {
        return refused(Refusal::SmallOutput, r);
    }
    if clock < r.clock {
        return refused(Refusal::ClockBack, r);
    }
    let q = places::state::lapse(r, clock);
    let i = octets::number::byte_at(m, 1) as usize;
    let t = turn_at(q.settings, place_of(q, i), clock, m, out);
    turned(q, i, t)
}
