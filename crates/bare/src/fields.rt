// The bare readers of each kind: 0 and the fields as numbers, or the refusal, 1 to 6. A byte string is told by its offset and length, a number
// that is missing by NONE. No check value is tested.
ghost use Rattle.std.specs.Prelude.{◌≡◌};
ghost use Rattle.refusal.specs.Table.{refusal_number};
ghost use Rattle.beacons.specs.Beacon.{read_beacon};
ghost use Rattle.misp.specs.Request.{read_request};
ghost use Rattle.misp.specs.Success.{read_success};
ghost use Rattle.misp.specs.Failure.{read_failure};
ghost use Rattle.misp.specs.Terminating.{read_terminating};
ghost use Rattle.misauth.specs.AccessRequest.{read_access_request};
ghost use Rattle.misauth.specs.Accept.{read_accept};
ghost use Rattle.misauth.specs.Reject.{read_reject};
ghost use Rattle.bare.specs.Fields.{uplink_said, groups_said, position_given, position_said, handed, beacon_fields, request_fields, success_fields, failure_fields, terminating_fields, access_request_fields, accept_fields, reject_fields, HandsOut};

use beacons::beacon::Uplink;
use handed::missing::said;
use octets::number::bit;
use octets::part::Part;
use position::Position;
use refusal::Refusal;

// An uplink as numbers, where it is given.
#[derive(Drop)]
struct UplinkNumbers {
    given: u64,
    line: u64,
    up: u64,
    down: u64,
}

// Where the groups stand, where they are given.
#[derive(Drop)]
struct GroupsPart {
    given: u64,
    at: u64,
    len: u64,
}

// The number of a refusal.
fn refused(why: Refusal) -> u32
    ensures { result ≡ refusal_number why }
{
    u32::from(u8::from(why))
}

// The numbers of an uplink; zeros where it is missing.
fn uplink_said(u: Option<Uplink>) -> UplinkNumbers
    ensures { result ≡ uplink_said u }
{
    match u {
        None => UplinkNumbers {
            given: 0,
            line: 0,
            up: 0,
            down: 0,
        },
        Some(v) => UplinkNumbers {
            given: 1,
            line: v.line as u64,
            up: v.up as u64,
            down: v.down as u64,
        },
    }
}

// Where the groups stand; zeros where they are missing.
fn groups_said(g: Option<Part>) -> GroupsPart
    ensures { result ≡ groups_said g }
{
    match g {
        None => GroupsPart {
            given: 0,
            at: 0,
            len: 0,
        },
        Some(p) => GroupsPart {
            given: 1,
            at: p.at as u64,
            len: p.len as u64,
        },
    }
}

// 1 where a position is given, else 0.
fn position_given(p: Option<Position>) -> u64
    ensures { result ≡ position_given p }
{
    u64::from(p.is_some())
}

// The bytes of a position; zeros where it is missing.
fn position_bytes(p: Option<Position>) -> [u8; 12]
    ensures { result ≡ position_said p }
{
    p.map_or([0u8; 12], position::bytes)
}

// Stamp, groups, serial, interval, security types, network numbers; whether there is a position; addresses left, filter; whether there is an
// uplink, its line, up and down; channel.
pub fn beacon(m: &[u8], fields: &mut [u64; 17], position: &mut [u8; 12]) -> u32
    ensures { HandsOut (beacon_fields (read_beacon m.now)) (handed fields.old position.old) result (handed fields.new position.new) }
{
    match beacons::beacon::read_beacon(m) {
        Err(why) => refused(why),
        Ok(v) => {
            let linked = uplink_said(v.extras.uplink);
            *fields = [
                v.stamp,
                v.groups.at as u64,
                v.groups.len as u64,
                v.serial as u64,
                v.interval as u64,
                v.security.at as u64,
                v.security.len as u64,
                v.layers.at as u64,
                v.layers.len as u64,
                position_given(v.extras.position),
                said(v.extras.left),
                said(v.extras.filter),
                linked.given,
                linked.line,
                linked.up,
                linked.down,
                said(v.extras.channel),
            ];
            *position = position_bytes(v.extras.position);
            0
        }
    }
}

// S, stamp, security types, check value, account, seed, network numbers, local address.
pub fn request(m: &[u8], fields: &mut [u64; 13]) -> u32
    ensures { HandsOut (request_fields (read_request m.now)) fields.old result fields.new }
{
    match misp::request::read_request(m) {
        Err(why) => refused(why),
        Ok(v) => {
            *fields = [
                bit(v.s) as u64,
                v.stamp,
                v.security.at as u64,
                v.security.len as u64,
                v.check.at as u64,
                v.check.len as u64,
                v.account.at as u64,
                v.account.len as u64,
                v.seed.at as u64,
                v.seed.len as u64,
                v.layers.at as u64,
                v.layers.len as u64,
                said(v.local),
            ];
            0
        }
    }
}

// S, stamp, the key's lifetime, check value, network numbers, local and remote address.
pub fn success(m: &[u8], fields: &mut [u64; 9]) -> u32
    ensures { HandsOut (success_fields (read_success m.now)) fields.old result fields.new }
{
    match misp::success::read_success(m) {
        Err(why) => refused(why),
        Ok(v) => {
            *fields = [
                bit(v.s) as u64,
                v.stamp,
                v.lifetime as u64,
                v.check.at as u64,
                v.check.len as u64,
                v.layers.at as u64,
                v.layers.len as u64,
                said(v.local),
                said(v.remote),
            ];
            0
        }
    }
}

// Stamp and reason.
pub fn failure(m: &[u8], fields: &mut [u64; 2]) -> u32
    ensures { HandsOut (failure_fields (read_failure m.now)) fields.old result fields.new }
{
    match misp::failure::read_failure(m) {
        Err(why) => refused(why),
        Ok(v) => {
            *fields = [v.stamp, v.reason as u64];
            0
        }
    }
}

// S, stamp, check value, reason.
pub fn terminating(m: &[u8], fields: &mut [u64; 5]) -> u32
    ensures { HandsOut (terminating_fields (read_terminating m.now)) fields.old result fields.new }
{
    match misp::terminating::read_terminating(m) {
        Err(why) => refused(why),
        Ok(v) => {
            *fields = [
                bit(v.s) as u64,
                v.stamp,
                v.check.at as u64,
                v.check.len as u64,
                said(v.reason),
            ];
            0
        }
    }
}

// Identifier, account, authentication data, check value, seed, security type, the router's IPv4 address, how many proxy and IPv6 objects;
// whether there are groups, and where.
pub fn access_request(m: &[u8], fields: &mut [u64; 16], position: &mut [u8; 12]) -> u32
    ensures { HandsOut (access_request_fields (read_access_request m.now)) (handed fields.old position.old) result (handed fields.new position.new) }
{
    match misauth::request::read_access_request(m) {
        Err(why) => refused(why),
        Ok(v) => {
            let groups = groups_said(v.groups);
            *fields = [
                v.identifier as u64,
                v.account.at as u64,
                v.account.len as u64,
                v.authentication.at as u64,
                v.authentication.len as u64,
                v.check.at as u64,
                v.check.len as u64,
                v.seed.at as u64,
                v.seed.len as u64,
                v.security as u64,
                said(v.router),
                v.proxies as u64,
                v.sixes as u64,
                groups.given,
                groups.at,
                groups.len,
            ];
            *position = position::bytes(v.position);
            0
        }
    }
}

// Identifier, the masked key, check value, how many proxy objects.
pub fn accept(m: &[u8], fields: &mut [u64; 6]) -> u32
    ensures { HandsOut (accept_fields (read_accept m.now)) fields.old result fields.new }
{
    match misauth::accept::read_accept(m) {
        Err(why) => refused(why),
        Ok(v) => {
            *fields = [
                v.identifier as u64,
                v.key.at as u64,
                v.key.len as u64,
                v.check.at as u64,
                v.check.len as u64,
                v.proxies as u64,
            ];
            0
        }
    }
}

// Identifier, how many proxy objects.
pub fn reject(m: &[u8], fields: &mut [u64; 2]) -> u32
    ensures { HandsOut (reject_fields (read_reject m.now)) fields.old result fields.new }
{
    match misauth::reject::read_reject(m) {
        Err(why) => refused(why),
        Ok(v) => {
            *fields = [v.identifier as u64, v.proxies as u64];
            0
        }
    }
}
