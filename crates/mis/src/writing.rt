// The bare writers: 20, 18, or how many bytes were written. A number that is missing is 2^64-1; a position, an uplink and groups go with a flag.
// Stays: these flags are the C interface (include/mis.h).
ghost use Rattle.beacons.specs.Beacon.{beacon_values};
ghost use Rattle.misp.specs.Request.{request_values};
ghost use Rattle.misp.specs.Success.{success_values};
ghost use Rattle.misp.specs.Terminating.{terminating_values};
ghost use Rattle.handed.specs.Missing.{optional_said};
ghost use Rattle.barewriters.specs.Writing.{position_where, uplink_where, extras_said, access_said, WritesBeacon, WritesRequest, WritesSuccess, WritesFailure, WritesTerminating, WritesAccessRequest, WritesAccept, WritesReject};

// Writes a beacon.
#[unsafe(no_mangle)]
pub extern "C" fn mis_write_beacon(
    stamp: u64,
    groups: &[u8],
    serial: u16,
    interval: u16,
    security: &[u8],
    layers: &[u8],
    placed: bool,
    place: &[u8; 12],
    left: u64,
    filter: u64,
    linked: bool,
    line: u16,
    up: u16,
    down: u16,
    channel: u64,
    out: &mut [u8],
) -> u32
    ensures { WritesBeacon (beacon_values stamp groups.now serial interval security.now layers.now (extras_said (position_where placed place.now) left filter (uplink_where linked line up down) channel)) out.old out.new result }
{
    barewriters::beacon(
        stamp, groups, serial, interval, security, layers, placed, place, left, filter, linked,
        line, up, down, channel, out,
    )
}

// Writes a request.
#[unsafe(no_mangle)]
pub extern "C" fn mis_write_request(
    s: bool,
    stamp: u64,
    security: &[u8],
    check: &[u8; 16],
    account: &[u8],
    seed: &[u8; 16],
    layers: &[u8],
    local: u64,
    out: &mut [u8],
) -> u32
    ensures { WritesRequest (request_values s stamp security.now check.now account.now seed.now layers.now (optional_said local)) out.old out.new result }
{
    barewriters::request(s, stamp, security, check, account, seed, layers, local, out)
}

// Writes a success.
#[unsafe(no_mangle)]
pub extern "C" fn mis_write_success(
    s: bool,
    stamp: u64,
    lifetime: u16,
    check: &[u8; 16],
    layers: &[u8],
    local: u64,
    remote: u64,
    out: &mut [u8],
) -> u32
    ensures { WritesSuccess (success_values s stamp lifetime check.now layers.now (optional_said local) (optional_said remote)) out.old out.new result }
{
    barewriters::success(s, stamp, lifetime, check, layers, local, remote, out)
}

// Writes a failure.
#[unsafe(no_mangle)]
pub extern "C" fn mis_write_failure(stamp: u64, reason: u16, out: &mut [u8]) -> u32
    ensures { WritesFailure stamp reason out.old out.new result }
{
    barewriters::failure(stamp, reason, out)
}

// Writes a terminating message.
#[unsafe(no_mangle)]
pub extern "C" fn mis_write_terminating(
    s: bool,
    stamp: u64,
    check: &[u8; 16],
    reason: u64,
    out: &mut [u8],
) -> u32
    ensures { WritesTerminating (terminating_values s stamp check.now (optional_said reason)) out.old out.new result }
{
    barewriters::terminating(s, stamp, check, reason, out)
}

// Writes an access request; the Authenticator stays zero.
#[unsafe(no_mangle)]
pub extern "C" fn mis_write_access_request(
    identifier: u8,
    account: &[u8],
    authentication: &[u8; 16],
    check: &[u8; 16],
    seed: &[u8; 16],
    security: u16,
    place: &[u8; 12],
    router: u64,
    proxies: &[u8],
    sixes: &[u8],
    grouped: bool,
    groups: &[u8],
    out: &mut [u8],
) -> u32
    ensures { WritesAccessRequest (access_said identifier authentication.now check.now seed.now security place.now router) account.now proxies.now sixes.now grouped groups.now out.old out.new result }
{
    barewriters::access_request(
        identifier,
        account,
        authentication,
        check,
        seed,
        security,
        place,
        router,
        proxies,
        sixes,
        grouped,
        groups,
        out,
    )
}

// Writes an accept; the Authenticator stays zero.
#[unsafe(no_mangle)]
pub extern "C" fn mis_write_accept(
    identifier: u8,
    key: &[u8; 16],
    check: &[u8; 16],
    proxies: &[u8],
    out: &mut [u8],
) -> u32
    ensures { WritesAccept identifier key.now check.now proxies.now out.old out.new result }
{
    barewriters::accept(identifier, key, check, proxies, out)
}

// Writes a reject; the Authenticator stays zero.
#[unsafe(no_mangle)]
pub extern "C" fn mis_write_reject(identifier: u8, proxies: &[u8], out: &mut [u8]) -> u32
    ensures { WritesReject identifier proxies.now out.old out.new result }
{
    barewriters::reject(identifier, proxies, out)
}
