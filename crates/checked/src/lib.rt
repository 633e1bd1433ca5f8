// MISP messages with their check value: the value that a message should hold, the answer by it, and the three kinds that carry one, written with it.
#![tactic(auto)]

ghost use Rattle.std.specs.Prelude.{true, ◌≡◌, take};
ghost use Rattle.octets.specs.Put.{put_in};
ghost use Rattle.octets.specs.Same.{same_bytes};
ghost use Rattle.object.specs.declared.family.Family.TheVariants.{Misp};
ghost use Rattle.octets.specs.Part.{bytes_at};
ghost use Rattle.message.specs.Writing.{Writes, is_name};
ghost use Rattle.checked.specs.Checked.{authentication_data, check_for, under_key, request_of, success_of, terminating_of};

use message::field::Message;
use message::misp::CHECK;
use object::family::Family;
use octets::part::Part;
use refusal::Refusal;

// The authentication data of a message: of its Length bytes, with the value of the object 5 that counts zero.
#[tactic(auto, unfolding(crate::specs::Checked::authentication_data))]
pub fn data(m: &[u8], sender: [u8; 6], receiver: [u8; 6]) -> [u8; 16]
    ensures { result ≡ authentication_data sender receiver m.now }
{
    let end = octets::number::number16(m, 2) as usize;
    let fields = Message {
        bytes: m,
        family: Family::Misp,
        end,
    };
    icv::authentication(
        octets::number::part(m, 0, end),
        fields.part(CHECK).at,
        sender,
        receiver,
    )
}

// Whether the check value that is this part of a message is the one that the message should hold.
#[tactic(auto, unfolding(crate::specs::Checked::check_for))]
pub fn is_right(key: &[u8], m: &[u8], sender: [u8; 6], receiver: [u8; 6], check: Part) -> bool
    ensures { result ≡ same_bytes (bytes_at m.now check) (check_for key.now sender receiver m.now) }
{
    let right = icv::check_value(key, data(m, sender, receiver));
    octets::same::same(octets::part::bytes_at(m, check), &right)
}

// The answer to a message under a session key, once it is read: 8, 21, 17 by its check value, or it is done.
pub fn under_key(
    s: bool,
    expected: bool,
    key: [u8; 16],
    m: &[u8],
    sender: [u8; 6],
    receiver: [u8; 6],
    check: Part,
) -> Result<(), Refusal>
    ensures { result ≡ under_key s expected (same_bytes (bytes_at m.now check) (check_for key sender receiver m.now)) }
{
    if s {
        return Err(Refusal::OtherKey);
    }
    if !expected {
        return Err(Refusal::NotExpected);
    }
    if is_right(&key, m, sender, receiver, check) {
        Ok(())
    } else {
        Err(Refusal::WrongCheck)
    }
}

// Puts the check value of the message that the first `n` bytes are into its place.
#[tactic(auto, unfolding(crate::specs::Checked::check_for))]
fn put_check(out: &mut [u8], n: usize, at: usize, key: &[u8], sender: [u8; 6], receiver: [u8; 6])
    ensures { out.new ≡ put_in out.old at (check_for key.now sender receiver (take n out.old)) }
{
    let authentication = data(octets::number::part(out, 0, n), sender, receiver);
    let check = icv::check_value(key, authentication);
    octets::put::put_bytes(out, at, &check);
}

// A request for one type and one network number, under the password; its check value stands at byte 20.
pub fn write_request(
    out: &mut [u8],
    password: &[u8],
    sender: [u8; 6],
    receiver: [u8; 6],
    stamp: u64,
    kind: u16,
    account: &[u8],
    seed: [u8; 16],
    network: u16,
) -> Result<usize, Refusal>
    ensures { Writes Misp (is_name account.now) (request_of password.now sender receiver stamp kind account.now seed network) out.old out.new result }
{
    let security = terms::list_of(kind);
    let layers = terms::list_of(network);
    let n = misp::request::write_request(
        out, false, stamp, &security, [0u8; 16], account, seed, &layers, None,
    )?;
    put_check(out, n, 20, password, sender, receiver);
    Ok(n)
}

// A success under the session key; its check value stands at byte 20.
pub fn write_success(
    out: &mut [u8],
    key: &[u8],
    sender: [u8; 6],
    receiver: [u8; 6],
    stamp: u64,
    lifetime: u16,
    network: u16,
) -> Result<usize, Refusal>
    ensures { Writes Misp true (success_of key.now sender receiver stamp lifetime network) out.old out.new result }
{
    let layers = terms::list_of(network);
    let n = misp::success::write_success(
        out, false, stamp, lifetime, [0u8; 16], &layers, None, None,
    )?;
    put_check(out, n, 20, key, sender, receiver);
    Ok(n)
}

// A terminating message under the session key; its check value stands at byte 16.
pub fn write_terminating(
    out: &mut [u8],
    key: &[u8],
    sender: [u8; 6],
    receiver: [u8; 6],
    stamp: u64,
) -> Result<usize, Refusal>
    ensures { Writes Misp true (terminating_of key.now sender receiver stamp) out.old out.new result }
{
    let n = misp::terminating::write_terminating(out, false, stamp, [0u8; 16], None)?;
    put_check(out, n, 16, key, sender, receiver);
    Ok(n)
}
