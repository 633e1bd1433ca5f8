// How a router's call over a lent state begins: another size, 20 and 7 stop it; past them the clock is stored and what has lapsed goes.
ghost use Rattle.lentrouter.specs.Begin.{CallBegins};

use crate::ending::refused;
use handed::MISUSE;
use inplace::changing::lapse;
use inplace::reading::clock_of;
use refusal::Refusal;
use storedrouter::router_state::SIZE;

// The number of a call that stops here. An output of `room` bytes is too small below `limit`.
#[tactic(auto, unfolding(handed::specs::Code::coded))]
pub(crate) fn begin(state: &mut [u8], clock: u64, room: usize, limit: usize) -> Result<(), u32>
    ensures { CallBegins state.old clock room limit result state.new }
{
    if state.len() != SIZE {
        return Err(MISUSE);
    }
    if room < limit {
        return Err(refused(Refusal::SmallOutput));
    }
    if clock < clock_of(state) {
        return Err(refused(Refusal::ClockBack));
    }
    lapse(state, clock);
    Ok(())
}
