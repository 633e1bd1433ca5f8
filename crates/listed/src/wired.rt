// `readauth MESSAGE`: what the bare readers of MISAUTH hand back.
ghost use Rattle.std.specs.Prelude.{◌≡◌, List, ℕ};
ghost use Rattle.misauth.specs.AccessRequest.{access_request_from, groups_told, groups_object};
ghost use Rattle.misauth.specs.Accept.{accept_from};
ghost use Rattle.misauth.specs.Reject.{reject_from};
ghost use Rattle.told.specs.Print.{Puts};
ghost use Rattle.listed.specs.Fields.{objects_of, all_objects, listing_text};
ghost use Rattle.listed.specs.Wired.{access_request_objects, accept_objects, reject_objects, access_request_text, accept_text, reject_text, misauth_text};

use crate::fields::{
    Field, Listed, MOST, given_position, no_reader, number_field, optional_field, put_listing,
};
use misauth::accept::Accept;
use misauth::reject::Reject;
use misauth::request::AccessRequest;
use object::family::Family;
use octets::part::Part;
use refusal::Refusal;

// The groups of an access request, where it has any.
fn groups_field(g: Option<Part>) -> Field
    ensures { (m : List ℕ) → objects_of m result ≡ groups_object (groups_told m g) }
{
    match g {
        None => Field::Missing,
        Some(p) => Field::Part(206, p),
    }
}

// The fields of an access request.
fn access_request_fields(r: AccessRequest) -> [Field; MOST]
    ensures { (m : List ℕ) → all_objects m result ≡ access_request_objects (access_request_from m r) }
{
    [
        Field::Part(1, r.account),
        optional_field(4, 4, r.router),
        Field::Run(33),
        Field::Run(95),
        Field::Part(200, r.authentication),
        Field::Part(201, r.check),
        Field::Part(202, r.seed),
        given_position(204, r.position),
        number_field(205, 2, r.security as u64),
        groups_field(r.groups),
        Field::Missing,
    ]
}

// .. of an accept.
#[tactic(auto, unfolding(crate::specs::Wired::accept_objects))]
fn accept_fields(a: Accept) -> [Field; MOST]
    ensures { (m : List ℕ) → all_objects m result ≡ accept_objects (accept_from m a) }
{
    let mut fields = [Field::Missing; MOST];
    fields[0] = Field::Run(33);
    fields[1] = Field::Part(201, a.check);
    fields[2] = Field::Part(203, a.key);
    fields
}

// .. of a reject.
#[tactic(auto, unfolding(crate::specs::Wired::reject_objects))]
fn reject_fields(r: Reject) -> [Field; MOST]
    ensures { (m : List ℕ) → all_objects m result ≡ reject_objects (reject_from m r) }
{
    let mut fields = [Field::Missing; MOST];
    fields[0] = Field::Run(33);
    fields
}

// The fields of an access request, or its refusal.
#[tactic(auto, unfolding(misauth::specs::AccessRequest::access_request_told))]
fn read_request(m: &[u8]) -> Result<Listed, Refusal>
    ensures { listing_text m.now result ≡ access_request_text m.now }
{
    let r = misauth::request::read_access_request(m)?;
    Ok(Listed {
        code: 1,
        second: r.identifier,
        fields: access_request_fields(r),
    })
}

// The fields of an accept, or its refusal.
#[tactic(auto, unfolding(misauth::specs::Accept::accept_told))]
fn read_accept(m: &[u8]) -> Result<Listed, Refusal>
    ensures { listing_text m.now result ≡ accept_text m.now }
{
    let a = misauth::accept::read_accept(m)?;
    Ok(Listed {
        code: 2,
        second: a.identifier,
        fields: accept_fields(a),
    })
}

// The fields of a reject, or its refusal.
#[tactic(auto, unfolding(misauth::specs::Reject::reject_told))]
fn read_reject(m: &[u8]) -> Result<Listed, Refusal>
    ensures { listing_text m.now result ≡ reject_text m.now }
{
    let r = misauth::reject::read_reject(m)?;
    Ok(Listed {
        code: 3,
        second: r.identifier,
        fields: reject_fields(r),
    })
}

// The reader of the message's code.
#[tactic(auto, unfolding(crate::specs::Wired::misauth_text))]
fn listed(m: &[u8]) -> Result<Listed, Refusal>
    ensures { listing_text m.now result ≡ misauth_text m.now }
{
    match octets::number::byte_at(m, 0) {
        1 => read_request(m),
        2 => read_accept(m),
        3 => read_reject(m),
        _ => no_reader(m, Family::Misauth),
    }
}

// The fields of a message, or its refusal.
pub fn read(text: &mut [u8], at: usize, m: &[u8]) -> usize
    ensures { Puts (misauth_text m.now) text.old at text.new result }
{
    put_listing(text, at, m, listed(m))
}
