// The bare readers by code: whether a message is read, or the refusal, 1 to 6, that its reader meets. And the readers of each kind
// with its fields.
#![tactic(auto)]

pub mod fields;

ghost use Rattle.std.specs.Prelude.{◌≡◌};
ghost use Rattle.beacons.specs.Beacon.{read_beacon};
ghost use Rattle.misp.specs.Request.{read_request};
ghost use Rattle.misp.specs.Success.{read_success};
ghost use Rattle.misp.specs.Failure.{read_failure};
ghost use Rattle.misp.specs.Terminating.{read_terminating};
ghost use Rattle.misauth.specs.AccessRequest.{read_access_request};
ghost use Rattle.misauth.specs.Accept.{read_accept};
ghost use Rattle.misauth.specs.Reject.{read_reject};
ghost use Rattle.message.specs.Reading.{headed};
ghost use Rattle.bare.specs.Fields.{beacon_fields, request_fields, success_fields, failure_fields, terminating_fields, access_request_fields, accept_fields, reject_fields};
ghost use Rattle.bare.specs.Reading.{answer_of, other_answer, misp_answer, misauth_answer};

use object::family::Family;
use refusal::Refusal;

// A code that no reader takes: 1 or 2, then 3.
fn other(m: &[u8], f: Family) -> Result<(), Refusal>
    ensures { result ≡ other_answer (headed f m.now) }
{
    message::reading::head(m, f)?;
    Err(Refusal::OtherCode)
}

// Stays: a function for each kind, though their bodies are alike. As arms of one `match` they make room for the fields of every kind, and set it to zero,
// whatever the message is.

// Whether a beacon is read, or why not.
fn beacon(m: &[u8]) -> Result<(), Refusal>
    ensures { result ≡ answer_of (beacon_fields (read_beacon m.now)) }
{
    beacons::beacon::read_beacon(m).map(|_| ())
}

// Whether a request is read, or why not.
fn request(m: &[u8]) -> Result<(), Refusal>
    ensures { result ≡ answer_of (request_fields (read_request m.now)) }
{
    misp::request::read_request(m).map(|_| ())
}

// Whether a success is read, or why not.
fn success(m: &[u8]) -> Result<(), Refusal>
    ensures { result ≡ answer_of (success_fields (read_success m.now)) }
{
    misp::success::read_success(m).map(|_| ())
}

// Whether a failure is read, or why not.
fn failure(m: &[u8]) -> Result<(), Refusal>
    ensures { result ≡ answer_of (failure_fields (read_failure m.now)) }
{
    misp::failure::read_failure(m).map(|_| ())
}

// Whether a terminating message is read, or why not.
fn terminating(m: &[u8]) -> Result<(), Refusal>
    ensures { result ≡ answer_of (terminating_fields (read_terminating m.now)) }
{
    misp::terminating::read_terminating(m).map(|_| ())
}

// Whether an access request is read, or why not.
fn access_request(m: &[u8]) -> Result<(), Refusal>
    ensures { result ≡ answer_of (access_request_fields (read_access_request m.now)) }
{
    misauth::request::read_access_request(m).map(|_| ())
}

// Whether an accept is read, or why not.
fn accept(m: &[u8]) -> Result<(), Refusal>
    ensures { result ≡ answer_of (accept_fields (read_accept m.now)) }
{
    misauth::accept::read_accept(m).map(|_| ())
}

// Whether a reject is read, or why not.
fn reject(m: &[u8]) -> Result<(), Refusal>
    ensures { result ≡ answer_of (reject_fields (read_reject m.now)) }
{
    misauth::reject::read_reject(m).map(|_| ())
}

// Reads a MISP message by its code.
#[tactic(auto, unfolding(crate::specs::Reading::misp_answer))]
pub fn read_misp(m: &[u8]) -> Result<(), Refusal>
    ensures { result ≡ misp_answer m.now }
{
    match octets::number::byte_at(m, 0) {
        message::misp::BEACON => beacon(m),
        message::misp::REQUEST => request(m),
        message::misp::SUCCESS => success(m),
        message::misp::FAILURE => failure(m),
        message::misp::TERMINATING => terminating(m),
        _ => other(m, Family::Misp),
    }
}

// Reads a MISAUTH message by its code.
#[tactic(auto, unfolding(crate::specs::Reading::misauth_answer))]
pub fn read_misauth(m: &[u8]) -> Result<(), Refusal>
    ensures { result ≡ misauth_answer m.now }
{
    match octets::number::byte_at(m, 0) {
        message::misauth::REQUEST => access_request(m),
        message::misauth::ACCEPT => accept(m),
        message::misauth::REJECT => reject(m),
        _ => other(m, Family::Misauth),
    }
}
