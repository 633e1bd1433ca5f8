// The one number that a call hands back: its answer, to whom goes what it wrote, and how many bytes it wrote. The address, and digests, into
// lent arrays.
#![tactic(auto)]

pub mod digests; // MD5 and HMAC-MD5 into a lent array
pub mod missing; // a number that may be missing

ghost use Rattle.std.specs.Prelude.{◌≡◌};
ghost use Rattle.handed.specs.Code.{to_number, coded, wrote_to, addressed};

use refusal::{Refusal, To};

// What a call hands back where the state buffer has not the size that the library tells: no number of the table.
pub const MISUSE: u32 = 255;

// To whom goes what was written: nobody, everyone, an address, the server.
fn to_number(to: To) -> u32
    ensures { result ≡ to_number to }
{
    match to {
        To::Nobody => 0,
        To::Everyone => 1,
        To::Address(_) => 2,
        To::Server => 3,
    }
}

// The answer in byte 0, the destination in byte 1, how many bytes were written in bytes 2 and 3.
#[tactic(auto, unfolding(crate::specs::Code::coded))]
pub fn coded(answer: Result<(), Refusal>, to: To, written: usize) -> u32
    ensures { result ≡ coded answer to written }
{
    let number = refusal::answer_number(answer) as u32;
    let size = (written % 65536) as u32;
    number + 256 * to_number(to) + 65536 * size
}

// A writer's answer, where what it wrote goes to `to`.
pub fn wrote(w: Result<usize, Refusal>, to: To) -> u32
    ensures { result ≡ wrote_to to w }
{
    match w {
        Err(why) => coded(Err(why), To::Nobody, 0),
        Ok(n) => coded(Ok(()), to, n),
    }
}

// The address goes out where what was written goes to an address.
pub fn hand_out(receiver: To, to: &mut [u8; 6])
    ensures { to.new ≡ addressed receiver to.old }
{
    if let To::Address(address) = receiver {
        *to = address;
    }
}
