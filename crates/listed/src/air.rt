// `read MESSAGE`: what the bare readers of MISP hand back.
ghost use Rattle.std.specs.Prelude.{◌≡◌, List, ℕ};
ghost use Rattle.octets.specs.Choice.{bit_of};
ghost use Rattle.message.specs.Field.{flag_in};
ghost use Rattle.beacons.specs.Beacon.{beacon_from, position_object, uplink_object};
ghost use Rattle.misp.specs.Request.{request_from};
ghost use Rattle.misp.specs.Success.{success_from};
ghost use Rattle.misp.specs.Terminating.{terminating_from};
ghost use Rattle.told.specs.Print.{Puts};
ghost use Rattle.listed.specs.Fields.{objects_of, all_objects, listing_text};
ghost use Rattle.listed.specs.Air.{beacon_objects, request_objects, success_objects, failure_objects, terminating_objects, beacon_text, request_text, success_text, failure_text, terminating_text, misp_text};

use crate::fields::{
    Field, Listed, MOST, given_position, no_reader, number_field, optional_field, put_listing,
};
use beacons::beacon::{Beacon, Uplink, uplink_bytes};
use misp::failure::Failure;
use misp::request::Request;
use misp::success::Success;
use misp::terminating::Terminating;
use object::family::Family;
use position::Position;
use refusal::Refusal;

// The position of a beacon, where it has one.
fn position_field(p: Option<Position>) -> Field
    ensures { (m : List ℕ) → objects_of m result ≡ position_object p }
{
    match p {
        None => Field::Missing,
        Some(q) => given_position(9, q),
    }
}

// The uplink of a beacon, where it has one.
fn uplink_field(u: Option<Uplink>) -> Field
    ensures { (m : List ℕ) → objects_of m result ≡ uplink_object u }
{
    match u {
        None => Field::Missing,
        Some(v) => Field::Own(19, octets::put::fitted(&uplink_bytes(v)), 6),
    }
}

// The fields of a beacon.
fn beacon_fields(b: Beacon) -> [Field; MOST]
    ensures { (m : List ℕ) → all_objects m result ≡ beacon_objects (beacon_from m b) }
{
    [
        number_field(2, 8, b.stamp),
        position_field(b.extras.position),
        optional_field(10, 1, b.extras.left),
        optional_field(11, 1, b.extras.filter),
        Field::Part(14, b.groups),
        number_field(16, 2, b.serial as u64),
        number_field(17, 2, b.interval as u64),
        Field::Part(18, b.security),
        uplink_field(b.extras.uplink),
        optional_field(20, 1, b.extras.channel),
        Field::Part(21, b.layers),
    ]
}

// The fields of a request.
#[tactic(auto, unfolding(crate::specs::Air::request_objects))]
fn request_fields(r: Request) -> [Field; MOST]
    ensures { (m : List ℕ) → all_objects m result ≡ request_objects (request_from m r) }
{
    let mut fields = [Field::Missing; MOST];
    fields[0] = number_field(2, 8, r.stamp);
    fields[1] = optional_field(3, 4, r.local);
    fields[2] = Field::Part(5, r.check);
    fields[3] = Field::Part(6, r.account);
    fields[4] = Field::Part(8, r.seed);
    fields[5] = Field::Part(18, r.security);
    fields[6] = Field::Part(21, r.layers);
    fields
}

// The fields of a success.
#[tactic(auto, unfolding(crate::specs::Air::success_objects))]
fn success_fields(s: Success) -> [Field; MOST]
    ensures { (m : List ℕ) → all_objects m result ≡ success_objects (success_from m s) }
{
    let mut fields = [Field::Missing; MOST];
    fields[0] = number_field(2, 8, s.stamp);
    fields[1] = optional_field(3, 4, s.local);
    fields[2] = optional_field(4, 4, s.remote);
    fields[3] = Field::Part(5, s.check);
    fields[4] = number_field(15, 2, s.lifetime as u64);
    fields[5] = Field::Part(21, s.layers);
    fields
}

// The fields of a failure.
#[tactic(auto, unfolding(crate::specs::Air::failure_objects))]
fn failure_fields(f: Failure) -> [Field; MOST]
    ensures { (m : List ℕ) → all_objects m result ≡ failure_objects f }
{
    let mut fields = [Field::Missing; MOST];
    fields[0] = number_field(2, 8, f.stamp);
    fields[1] = number_field(13, 2, f.reason as u64);
    fields
}

// The fields of a terminating message.
#[tactic(auto, unfolding(crate::specs::Air::terminating_objects))]
fn terminating_fields(t: Terminating) -> [Field; MOST]
    ensures { (m : List ℕ) → all_objects m result ≡ terminating_objects (terminating_from m t) }
{
    let mut fields = [Field::Missing; MOST];
    fields[0] = number_field(2, 8, t.stamp);
    fields[1] = Field::Part(5, t.check);
    fields[2] = optional_field(13, 2, t.reason);
    fields
}

// S, as it is printed: 1 or 0.
fn s_bit(m: &[u8]) -> u8
    ensures { result ≡ bit_of (flag_in m.now) }
{
    octets::number::bit(message::field::flag_of(m))
}

// The fields of a beacon, or its refusal.
#[tactic(auto, unfolding(beacons::specs::Beacon::beacon_told))]
fn read_beacon(m: &[u8]) -> Result<Listed, Refusal>
    ensures { listing_text m.now result ≡ beacon_text m.now }
{
    let b = beacons::beacon::read_beacon(m)?;
    Ok(Listed {
        code: 1,
        second: s_bit(m),
        fields: beacon_fields(b),
    })
}

// The fields of a request, or its refusal.
#[tactic(auto, unfolding(misp::specs::Request::request_told))]
fn read_request(m: &[u8]) -> Result<Listed, Refusal>
    ensures { listing_text m.now result ≡ request_text m.now }
{
    let r = misp::request::read_request(m)?;
    Ok(Listed {
        code: 3,
        second: s_bit(m),
        fields: request_fields(r),
    })
}

// The fields of a success, or its refusal.
#[tactic(auto, unfolding(misp::specs::Success::success_told))]
fn read_success(m: &[u8]) -> Result<Listed, Refusal>
    ensures { listing_text m.now result ≡ success_text m.now }
{
    let s = misp::success::read_success(m)?;
    Ok(Listed {
        code: 4,
        second: s_bit(m),
        fields: success_fields(s),
    })
}

// The fields of a failure, or its refusal.
fn read_failure(m: &[u8]) -> Result<Listed, Refusal>
    ensures { listing_text m.now result ≡ failure_text m.now }
{
    let f = misp::failure::read_failure(m)?;
    Ok(Listed {
        code: 8,
        second: s_bit(m),
        fields: failure_fields(f),
    })
}

// The fields of a terminating message, or its refusal.
#[tactic(auto, unfolding(misp::specs::Terminating::terminating_told))]
fn read_terminating(m: &[u8]) -> Result<Listed, Refusal>
    ensures { listing_text m.now result ≡ terminating_text m.now }
{
    let t = misp::terminating::read_terminating(m)?;
    Ok(Listed {
        code: 9,
        second: s_bit(m),
        fields: terminating_fields(t),
    })
}

// The reader of the message's code.
#[tactic(auto, unfolding(crate::specs::Air::misp_text))]
fn listed(m: &[u8]) -> Result<Listed, Refusal>
    ensures { listing_text m.now result ≡ misp_text m.now }
{
    match octets::number::byte_at(m, 0) {
        1 => read_beacon(m),
        3 => read_request(m),
        4 => read_success(m),
        8 => read_failure(m),
        9 => read_terminating(m),
        _ => no_reader(m, Family::Misp),
    }
}

// The fields of a message, or its refusal.
pub fn read(text: &mut [u8], at: usize, m: &[u8]) -> usize
    ensures { Puts (misp_text m.now) text.old at text.new result }
{
    put_listing(text, at, m, listed(m))
}
