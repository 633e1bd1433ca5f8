// What all calls over a lent state share: over its bytes, whosever state it is.
#![tactic(auto)]

ghost use Rattle.shell.specs.Shell.{GivesBack};

use handed::{coded, hand_out};
use octets::put::put_bytes;
use refusal::{Refusal, To};

// Stores the new state's bytes, hands out the address and tells the rest in one number.
pub fn give_back(
    answer: Result<(), Refusal>,
    receiver: To,
    written: usize,
    bytes: &[u8],
    state: &mut [u8],
    to: &mut [u8; 6],
) -> u32
    ensures { GivesBack answer receiver written bytes.now state.old to.old result state.new to.new }
{
    put_bytes(state, 0, bytes);
    hand_out(receiver, to);
    coded(answer, receiver, written)
}
