// The header, and the tests 1 to 6 that every reader makes, in the table's order.
ghost use Rattle.std.specs.Prelude.{◌≡◌};
ghost use Rattle.message.specs.Reading.{headed, body_of, has_one, has_all, all_fit, fits_in, fits_one, vetted_body, vetted};

use crate::{misauth, misp};
use object::family::Family;
use refusal::Refusal;

// Where a message ends that passed the tests of its kind.
#[derive(Clone, Copy, Debug, PartialEq, Eq)]
pub struct Sound {
    pub end: usize,
}

// Where a message ends, by the tests 1 and 2.
#[tactic(auto, unfolding(crate::specs::Reading::headed))]
pub fn head(m: &[u8], f: Family) -> Result<usize, Refusal>
    ensures { result ≡ headed f m.now }
{
    let header = f.header();
    if m.len() < header {
        return Err(Refusal::ShortHeader);
    }
    let end = octets::number::number16(m, 2) as usize;
    if end < header {
        return Err(Refusal::BadLength);
    }
    if f.limit() < end {
        return Err(Refusal::BadLength);
    }
    if m.len() < end {
        return Err(Refusal::BadLength);
    }
    Ok(end)
}

// What follows the header of a message that ends at `end`.
#[tactic(auto, unfolding(crate::specs::Reading::body_of))]
pub fn body(m: &[u8], f: Family, end: usize) -> &[u8]
    ensures { result.now ≡ body_of f end m.now }
{
    let header = f.header();
    if header <= end {
        return octets::number::part(m, header, end - header);
    }
    octets::number::part(m, header, 0)
}

// Whether a value of a type has the size that refusal 6 asks.
#[tactic(auto, unfolding(crate::specs::Reading::fits_in))]
fn fits(f: Family, kind: u8, len: usize) -> bool
    ensures { result ≡ fits_in f kind len }
{
    match f {
        Family::Misp => match kind {
            misp::CHECK | misp::SEED => len == 16,
            misp::ACCOUNT => 0 < len,
            _ => true,
        },
        Family::Misauth => match kind {
            misauth::AUTHENTICATION..=misauth::KEY => len == 16,
            misauth::ACCOUNT => 0 < len,
            _ => true,
        },
    }
}

// Whether there is an object of a type.
#[tactic(auto, using(crate::proofs::ReadingLaws::found_there), unfolding(crate::specs::Reading::has_one))]
fn has_one(body: &[u8], f: Family, kind: u8) -> bool
    ensures { result ≡ has_one f kind body.now }
{
    object::walk::find(body, f, kind).is_some()
}

// Whether there is one of each of the types.
fn has_all(body: &[u8], f: Family, types: &[u8]) -> bool
    ensures { result ≡ has_all f types.now body.now }
{
    types.iter().all(|t| has_one(body, f, *t))
}

// Whether the object of a type that counts, if there is one, has the size that refusal 6 asks.
#[tactic(auto, using(crate::proofs::ReadingLaws::fits_none), unfolding(crate::specs::Reading::fits_one))]
fn fits_one(body: &[u8], f: Family, kind: u8) -> bool
    ensures { result ≡ fits_one f kind body.now }
{
    match object::walk::find(body, f, kind) {
        None => true,
        Some(value) => fits(f, kind, value.len),
    }
}

// Whether all of them have the size that refusal 6 asks.
fn all_fit(body: &[u8], f: Family, types: &[u8]) -> bool
    ensures { result ≡ all_fit f types.now body.now }
{
    types.iter().all(|t| fits_one(body, f, *t))
}

// The tests 4, 5 and 6.
#[tactic(auto, using(crate::proofs::ReadingLaws::is_broken), unfolding(crate::specs::Reading::vetted_body))]
fn vet_body(inside: &[u8], f: Family, mandatory: &[u8], end: usize) -> Result<Sound, Refusal>
    ensures { result ≡ vetted_body f mandatory.now end inside.now }
{
    if object::walk::walk(inside, f).is_err() {
        return Err(Refusal::BrokenObject);
    }
    if !has_all(inside, f, mandatory) {
        return Err(Refusal::MissingObject);
    }
    if !all_fit(inside, f, mandatory) {
        return Err(Refusal::BadValue);
    }
    Ok(Sound { end })
}

// The tests 1 to 6 of a kind of message: its family, its code and its mandatory objects.
#[tactic(auto, unfolding(crate::specs::Reading::vetted))]
pub fn vet(m: &[u8], f: Family, code: u8, mandatory: &[u8]) -> Result<Sound, Refusal>
    ensures { result ≡ vetted f code mandatory.now m.now }
{
    let end = head(m, f)?;
    if octets::number::byte_at(m, 0) != code {
        return Err(Refusal::OtherCode);
    }
    vet_body(body(m, f, end), f, mandatory, end)
}
