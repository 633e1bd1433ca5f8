// The bare writers: 20, 18, or how many bytes were written. A number that is missing is NONE; a position, an uplink and groups go with a flag.
#![tactic(auto)]

ghost use Rattle.std.specs.Prelude.{◌≡◌};
ghost use Rattle.beacons.specs.Beacon.{beacon_values};
ghost use Rattle.misp.specs.Request.{request_values};
ghost use Rattle.misp.specs.Success.{success_values};
ghost use Rattle.misp.specs.Terminating.{terminating_values};
ghost use Rattle.handed.specs.Missing.{optional_said};
ghost use Rattle.barewriters.specs.Writing.{position_where, uplink_where, extras_said, access_said, WritesBeacon, WritesRequest, WritesSuccess, WritesFailure, WritesTerminating, WritesAccessRequest, WritesAccept, WritesReject};

use beacons::beacon::{Extras, Uplink};
use handed::missing::optional;
use handed::wrote;
use misauth::request::AccessRequestFields;
use position::Position;
use refusal::To;

// A position, where it is given.
fn position_where(given: bool, bytes: &[u8; 12]) -> Option<Position>
    ensures { result ≡ position_where given bytes.now }
{
    given.then_some(position::read(bytes))
}

// An uplink, where it is given.
fn uplink_where(given: bool, line: u16, up: u16, down: u16) -> Option<Uplink>
    ensures { result ≡ uplink_where given line up down }
{
    given.then_some(Uplink { line, up, down })
}

// Writes a beacon (document 000, 4.5.2); `left`, `filter` and `channel` may be NONE.
// Stays: flags for what may be missing, here and for groups below, as the C interface has them.
pub fn beacon(
    stamp: u64,
    groups: &[u8],
    serial: u16,
    interval: u16,
    security: &[u8],
    layers: &[u8],
    placed: bool,
    place: &[u8; 12],
    left: u64,
    filter: u64,
    linked: bool,
    line: u16,
    up: u16,
    down: u16,
    channel: u64,
    out: &mut [u8],
) -> u32
    ensures { WritesBeacon (beacon_values stamp groups.now serial interval security.now layers.now (extras_said (position_where placed place.now) left filter (uplink_where linked line up down) channel)) out.old out.new result }
{
    let extras = Extras {
        position: position_where(placed, place),
        left: optional(left),
        filter: optional(filter),
        uplink: uplink_where(linked, line, up, down),
        channel: optional(channel),
    };
    let w = beacons::beacon::write_beacon(
        out, stamp, groups, serial, interval, security, layers, extras,
    );
    wrote(w, To::Nobody)
}

// Writes a request; `local` may be NONE.
pub fn request(
    s: bool,
    stamp: u64,
    security: &[u8],
    check: &[u8; 16],
    account: &[u8],
    seed: &[u8; 16],
    layers: &[u8],
    local: u64,
    out: &mut [u8],
) -> u32
    ensures { WritesRequest (request_values s stamp security.now check.now account.now seed.now layers.now (optional_said local)) out.old out.new result }
{
    let local = optional(local);
    let w = misp::request::write_request(
        out, s, stamp, security, *check, account, *seed, layers, local,
    );
    wrote(w, To::Nobody)
}

// Writes a success; `local` and `remote` may be NONE.
pub fn success(
    s: bool,
    stamp: u64,
    lifetime: u16,
    check: &[u8; 16],
    layers: &[u8],
    local: u64,
    remote: u64,
    out: &mut [u8],
) -> u32
    ensures { WritesSuccess (success_values s stamp lifetime check.now layers.now (optional_said local) (optional_said remote)) out.old out.new result }
{
    let local = optional(local);
    let remote = optional(remote);
    let w = misp::success::write_success(out, s, stamp, lifetime, *check, layers, local, remote);
    wrote(w, To::Nobody)
}

// Writes a failure.
pub fn failure(stamp: u64, reason: u16, out: &mut [u8]) -> u32
    ensures { WritesFailure stamp reason out.old out.new result }
{
    let w = misp::failure::write_failure(out, stamp, reason);
    wrote(w, To::Nobody)
}

// Writes a terminating message; `reason` may be NONE.
pub fn terminating(s: bool, stamp: u64, check: &[u8; 16], reason: u64, out: &mut [u8]) -> u32
    ensures { WritesTerminating (terminating_values s stamp check.now (optional_said reason)) out.old out.new result }
{
    let w = misp::terminating::write_terminating(out, s, stamp, *check, optional(reason));
    wrote(w, To::Nobody)
}

// Writes an access request; the Authenticator stays zero. `router` may be NONE; `proxies` and `sixes` are runs of objects 33 and 95.
pub fn access_request(
    identifier: u8,
    account: &[u8],
    authentication: &[u8; 16],
    check: &[u8; 16],
    seed: &[u8; 16],
    security: u16,
    place: &[u8; 12],
    router: u64,
    proxies: &[u8],
    sixes: &[u8],
    grouped: bool,
    groups: &[u8],
    out: &mut [u8],
) -> u32
    ensures { WritesAccessRequest (access_said identifier authentication.now check.now seed.now security place.now router) account.now proxies.now sixes.now grouped groups.now out.old out.new result }
{
    let fields = AccessRequestFields {
        identifier,
        authentication: *authentication,
        check: *check,
        seed: *seed,
        security,
        position: position::read(place),
        router: optional(router),
    };
    let groups = grouped.then_some(groups);
    let w = misauth::request::write_access_request(out, &fields, account, proxies, sixes, groups);
    wrote(w, To::Nobody)
}

// Writes an accept, its Authenticator zero; `proxies` is a run of objects 33.
pub fn accept(
    identifier: u8,
    key: &[u8; 16],
    check: &[u8; 16],
    proxies: &[u8],
    out: &mut [u8],
) -> u32
    ensures { WritesAccept identifier key.now check.now proxies.now out.old out.new result }
{
    let w = misauth::accept::write_accept(out, identifier, *key, *check, proxies);
    wrote(w, To::Nobody)
}

// Writes a reject, its Authenticator zero; `proxies` is a run of objects 33.
pub fn reject(identifier: u8, proxies: &[u8], out: &mut [u8]) -> u32
    ensures { WritesReject identifier proxies.now out.old out.new result }
{
    let w = misauth::reject::write_reject(out, identifier, proxies);
    wrote(w, To::Nobody)
}
