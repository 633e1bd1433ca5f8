// What a request leads to on the air and at the server: a failure, or the access request.
ghost use Rattle.std.specs.Prelude.{◌≡◌, ◌≤◌, length, take};
ghost use Rattle.octets.specs.Numbers.{number_of};
ghost use Rattle.position.specs.Position.{in_range};
ghost use Rattle.object.specs.declared.family.Family.TheVariants.{Misauth};
ghost use Rattle.object.specs.Family.{limit_of};
ghost use Rattle.octets.specs.Part.{bytes_at};
ghost use Rattle.message.specs.Writing.{Writes};
ghost use Rattle.misp.specs.Request.{request_from};
ghost use Rattle.turn.specs.Outcome.{with_place};
ghost use Rattle.turn.specs.OnePlace.{Turns};
ghost use Rattle.turn.specs.Writes.{asked_of};
ghost use Rattle.entering.specs.Request.{failing, asking};
ghost use Rattle.entering.specs.Parts.{fields_for, Vouched, AsksAt, KeepsPlace};

use message::field::sixteen_at;
use misauth::request::AccessRequestFields;
use misp::request::Request;
use places::place::Place;
use places::state::Settings;
use refusal::{Outcome, Refusal, To, written};

// A failure with the request's stamp and the refusal's reason; the place stays.
pub(crate) fn fail(
    why: Refusal,
    reason: u16,
    p: Place,
    from: [u8; 6],
    m: &[u8],
    v: Request,
    out: &mut [u8],
) -> Outcome<Place>
    requires { limit_of Misauth ≤ length out.old }
    ensures { KeepsPlace p (λ q. failing why reason q from (request_from m.now v) out.old) result out.new }
{
    let w = misp::failure::write_failure(out, v.stamp, reason);
    written(w, Err(why), p, p, To::Address(from))
}

// The number of the one security type.
fn type_of(m: &[u8], v: Request) -> u16
    ensures { result ≡ number_of (take 2 (bytes_at m.now v.security)) }
{
    octets::number::number16(octets::part::bytes_at(m, v.security), 0)
}

// What the access request is made of, but for its account.
fn fields_for(s: Settings, i: u8, from: [u8; 6], m: &[u8], v: Request) -> AccessRequestFields
    requires vouched { Vouched m.now v }
    requires one_number { length (bytes_at m.now v.security) ≡ 2 }
    ensures { result ≡ fields_for s i from m.now (request_from m.now v) }
{
    // Stays: locals for the arrays; an array that a call gives gets no proof where it is put straight into a literal.
    let authentication = checked::data(m, from, s.address);
    let check = sixteen_at(m, v.check);
    let seed = sixteen_at(m, v.seed);
    AccessRequestFields {
        identifier: i,
        authentication,
        check,
        seed,
        security: type_of(m, v),
        position: s.position,
        router: None,
    }
}

// The access request, with the place number as Identifier and its Authenticator put in.
fn write_asked(
    s: Settings,
    i: u8,
    from: [u8; 6],
    m: &[u8],
    v: Request,
    out: &mut [u8],
) -> Result<usize, Refusal>
    requires vouched { Vouched m.now v }
    requires one_number { length (bytes_at m.now v.security) ≡ 2 }
    ensures { Writes Misauth (in_range s.position) (asked_of s i from m.now (request_from m.now v)) out.old out.new result }
{
    let none = [0u8; 0];
    // Stays: a `match`; with `?` in its place the proof of the refusal did not close.
    match misauth::request::write_access_request(
        out,
        &fields_for(s, i, from, m, v),
        octets::part::bytes_at(m, v.account),
        &none,
        &none,
        None,
    ) {
        Err(why) => Err(why),
        Ok(n) => {
            authenticator::seal(out, n, s.secret.as_slice());
            Ok(n)
        }
    }
}

// The access request goes out for place i; where it cannot be written (18) the place stays.
pub(crate) fn ask(
    settings: Settings,
    before: Place,
    after: Place,
    i: usize,
    from: [u8; 6],
    m: &[u8],
    v: Request,
    out: &mut [u8],
) -> Outcome<Place>
    requires { AsksAt i m.now v out.old }
    ensures { Turns settings i before (λ q. asking q (with_place i after q) i from m.now (request_from m.now v) out.old) result out.new }
{
    let w = write_asked(settings, i as u8, from, m, v, out);
    written(w, Ok(()), before, after, To::Server)
}
