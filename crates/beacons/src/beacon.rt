// The beacon message (document 000, 4.5.2).
ghost use Rattle.std.specs.Prelude.{◌≡◌, ◌+◌, ◌≤◌, length};
ghost use Rattle.beacons.specs.Beacon.{read_beacon, beacon_at, beacon_bytes, beacon_in_range, beacon_values, position_in, uplink_of, uplink_bytes, uplink_in, extras_at, position_object, uplink_object, extra_objects, position_in_range, extras_in_range};
ghost use Rattle.message.specs.Writing.{Writes, Placed};
ghost use Rattle.object.specs.declared.family.Family.TheVariants.{Misp};

use message::field::Message;
use message::misp::{
    BEACON, CHANNEL, FILTER, GROUPS, INTERVAL, LAYERS, LEFT, POSITION, SECURITY, SERIAL, STAMP,
    UPLINK,
};
use message::reading::vet;
use message::writing::{Object, below, given, is_list, optional, write};
use object::family::Family;
use octets::part::Part;
use position::Position;
use refusal::Refusal;

// The uplink (document 000, 4.4.17): its type, and the bandwidth in kbps both ways.
#[derive(Clone, Copy, Default)]
pub struct Uplink {
    pub line: u16,
    pub up: u16,
    pub down: u16,
}

// What may stand in a beacon besides its mandatory objects: 9, 10, 11, 19 and 20.
#[derive(Clone, Copy)]
pub struct Extras {
    pub position: Option<Position>,
    pub left: Option<u64>,
    pub filter: Option<u64>,
    pub uplink: Option<Uplink>,
    pub channel: Option<u64>,
}

// The stamp, serial and interval, and the parts that are groups, security types and network numbers.
#[derive(Clone, Copy)]
pub struct Beacon {
    pub stamp: u64,
    pub groups: Part,
    pub serial: u16,
    pub interval: u16,
    pub security: Part,
    pub layers: Part,
    pub extras: Extras,
}

// The uplink in the six bytes of a value.
#[tactic(auto, unfolding(crate::specs::Beacon::uplink_of))]
fn uplink_from(value: &[u8]) -> Uplink
    ensures { result ≡ uplink_of value.now }
{
    Uplink {
        line: octets::number::number16(value, 0),
        up: octets::number::number16(value, 2),
        down: octets::number::number16(value, 4),
    }
}

// The fields of the optional objects: 9, 10, 11, 19 and 20.
#[tactic(auto, using(crate::proofs::ExtrasLaws::position_map, crate::proofs::ExtrasLaws::uplink_map), unfolding(crate::specs::Beacon::extras_at, crate::specs::Beacon::position_in, crate::specs::Beacon::uplink_in))]
fn extras_at(m: &[u8], end: usize) -> Extras
    ensures { result ≡ extras_at end m.now }
{
    let fields = Message {
        bytes: m,
        family: Family::Misp,
        end,
    };
    Extras {
        position: fields.get(POSITION).map(position::read),
        left: fields.optional(LEFT),
        filter: fields.optional(FILTER),
        uplink: fields.get(UPLINK).map(uplink_from),
        channel: fields.optional(CHANNEL),
    }
}

// The fields of a beacon, or 1 to 5.
#[tactic(auto, unfolding(crate::specs::Beacon::read_beacon, crate::specs::Beacon::beacon_at))]
pub fn read_beacon(m: &[u8]) -> Result<Beacon, Refusal>
    ensures { result ≡ read_beacon m.now }
{
    let end = vet(
        m,
        Family::Misp,
        BEACON,
        &[STAMP, GROUPS, SERIAL, INTERVAL, SECURITY, LAYERS],
    )?
    .end;
    let fields = Message {
        bytes: m,
        family: Family::Misp,
        end,
    };
    Ok(Beacon {
        stamp: fields.number64(STAMP),
        groups: fields.part(GROUPS),
        serial: fields.number16(SERIAL),
        interval: fields.number16(INTERVAL),
        security: fields.part(SECURITY),
        layers: fields.part(LAYERS),
        extras: extras_at(m, end),
    })
}

// The six bytes of an uplink.
#[tactic(auto, using(crate::proofs::ExtrasLaws::uplink_put))]
pub fn uplink_bytes(u: Uplink) -> [u8; 6]
    ensures { result ≡ uplink_bytes u }
{
    let mut t = [0u8; 6];
    octets::put::put_number(&mut t, 0, 2, u64::from(u.line));
    octets::put::put_number(&mut t, 2, 2, u64::from(u.up));
    octets::put::put_number(&mut t, 4, 2, u64::from(u.down));
    t
}

// No position, or one that can be said.
fn position_in_range(p: Option<Position>) -> bool
    ensures { result ≡ position_in_range p }
{
    p.is_none_or(position::in_range)
}

// Whether the optional fields can be written; else refusal 18.
#[tactic(auto, unfolding(crate::specs::Beacon::extras_in_range))]
fn extras_in_range(e: Extras) -> bool
    ensures { result ≡ extras_in_range e }
{
    position_in_range(e.position)
        && below(e.left, 256)
        && below(e.filter, 2)
        && below(e.channel, 256)
}

// Writes a beacon, or refuses with 20 or 18. It tests both itself, before the list is made: by `write` alone a beacon of short lists takes a tenth longer.
pub fn write_beacon<'a>(
    out: &mut [u8],
    stamp: u64,
    groups: &'a [u8],
    serial: u16,
    interval: u16,
    security: &'a [u8],
    layers: &'a [u8],
    extras: Extras,
) -> Result<usize, Refusal>
    ensures { Writes Misp (beacon_in_range (beacon_values stamp groups.now serial interval security.now layers.now extras)) (beacon_bytes (beacon_values stamp groups.now serial interval security.now layers.now extras)) out.old out.new result }
{
    if out.len() < Family::Misp.limit() {
        return Err(Refusal::SmallOutput);
    }
    let lists = is_list(groups, 4) && is_list(security, 2) && is_list(layers, 2);
    let in_range = lists && extras_in_range(extras);
    if !in_range {
        return Err(Refusal::OutOfRange);
    }
    // of a position or an uplink that is missing: the bytes of its default, which are not put
    let place = position::bytes(extras.position.unwrap_or_default());
    let uplink = uplink_bytes(extras.uplink.unwrap_or_default());
    let objects = [
        Object::Number(STAMP, 8, stamp),
        Object::Bytes(GROUPS, groups),
        Object::Number(SERIAL, 2, u64::from(serial)),
        Object::Number(INTERVAL, 2, u64::from(interval)),
        Object::Bytes(SECURITY, security),
        Object::Bytes(LAYERS, layers),
        given(extras.position.is_some(), Object::Bytes(POSITION, &place)),
        optional(LEFT, 1, extras.left),
        optional(FILTER, 1, extras.filter),
        given(extras.uplink.is_some(), Object::Bytes(UPLINK, &uplink)),
        optional(CHANNEL, 1, extras.channel),
    ];
    write(out, Family::Misp, BEACON, 0, true, &objects)
}
