// The bare readers: 0 where a message is read, or the refusal, 1 to 6. Fields go out as numbers; a byte string is told by its offset and
// length, a number that is missing by 2^64-1. No check value is tested.
ghost use Rattle.std.specs.Prelude.{◌≡◌};
ghost use Rattle.refusal.specs.Table.{answer_number};
ghost use Rattle.beacons.specs.Beacon.{read_beacon};
ghost use Rattle.misp.specs.Request.{read_request};
ghost use Rattle.misp.specs.Success.{read_success};
ghost use Rattle.misp.specs.Failure.{read_failure};
ghost use Rattle.misp.specs.Terminating.{read_terminating};
ghost use Rattle.misauth.specs.AccessRequest.{read_access_request};
ghost use Rattle.misauth.specs.Accept.{read_accept};
ghost use Rattle.misauth.specs.Reject.{read_reject};
ghost use Rattle.bare.specs.Reading.{misp_answer, misauth_answer};
ghost use Rattle.bare.specs.Fields.{handed, beacon_fields, request_fields, success_fields, failure_fields, terminating_fields, access_request_fields, accept_fields, reject_fields, HandsOut};

// Reads a MISP message by its code.
#[unsafe(no_mangle)]
pub extern "C" fn mis_read(message: &[u8]) -> u32
    ensures { result ≡ answer_number (misp_answer message.now) }
{
    refusal::answer_number(bare::read_misp(message)) as u32
}

// Reads a MISAUTH message by its code.
#[unsafe(no_mangle)]
pub extern "C" fn mis_readauth(message: &[u8]) -> u32
    ensures { result ≡ answer_number (misauth_answer message.now) }
{
    refusal::answer_number(bare::read_misauth(message)) as u32
}

// Reads a beacon: stamp, groups, serial, interval, security types, network numbers; whether there is a position; addresses left, filter;
// whether there is an uplink, its line, up and down; channel.
#[unsafe(no_mangle)]
pub extern "C" fn mis_read_beacon(
    message: &[u8],
    fields: &mut [u64; 17],
    position: &mut [u8; 12],
) -> u32
    ensures { HandsOut (beacon_fields (read_beacon message.now)) (handed fields.old position.old) result (handed fields.new position.new) }
{
    bare::fields::beacon(message, fields, position)
}

// Reads a request: S, stamp, security types, check value, account, seed, network numbers, local address.
#[unsafe(no_mangle)]
pub extern "C" fn mis_read_request(message: &[u8], fields: &mut [u64; 13]) -> u32
    ensures { HandsOut (request_fields (read_request message.now)) fields.old result fields.new }
{
    bare::fields::request(message, fields)
}

// Reads a success: S, stamp, the key's lifetime, check value, network numbers, local and remote address.
#[unsafe(no_mangle)]
pub extern "C" fn mis_read_success(message: &[u8], fields: &mut [u64; 9]) -> u32
    ensures { HandsOut (success_fields (read_success message.now)) fields.old result fields.new }
{
    bare::fields::success(message, fields)
}

// Reads a failure: stamp and reason.
#[unsafe(no_mangle)]
pub extern "C" fn mis_read_failure(message: &[u8], fields: &mut [u64; 2]) -> u32
    ensures { HandsOut (failure_fields (read_failure message.now)) fields.old result fields.new }
{
    bare::fields::failure(message, fields)
}

// Reads a terminating message: S, stamp, check value, reason.
#[unsafe(no_mangle)]
pub extern "C" fn mis_read_terminating(message: &[u8], fields: &mut [u64; 5]) -> u32
    ensures { HandsOut (terminating_fields (read_terminating message.now)) fields.old result fields.new }
{
    bare::fields::terminating(message, fields)
}

// Reads an access request: identifier, account, authentication data, check value, seed, security type, the router's IPv4 address, how many
// proxy and IPv6 objects; whether there are groups, and where.
#[unsafe(no_mangle)]
pub extern "C" fn mis_read_access_request(
    message: &[u8],
    fields: &mut [u64; 16],
    position: &mut [u8; 12],
) -> u32
    ensures { HandsOut (access_request_fields (read_access_request message.now)) (handed fields.old position.old) result (handed fields.new position.new) }
{
    bare::fields::access_request(message, fields, position)
}

// Reads an accept: identifier, the masked key, check value, how many proxy objects.
#[unsafe(no_mangle)]
pub extern "C" fn mis_read_accept(message: &[u8], fields: &mut [u64; 6]) -> u32
    ensures { HandsOut (accept_fields (read_accept message.now)) fields.old result fields.new }
{
    bare::fields::accept(message, fields)
}

// Reads a reject: identifier, how many proxy objects.
#[unsafe(no_mangle)]
pub extern "C" fn mis_read_reject(message: &[u8], fields: &mut [u64; 2]) -> u32
    ensures { HandsOut (reject_fields (read_reject message.now)) fields.old result fields.new }
{
    bare::fields::reject(message, fields)
}
