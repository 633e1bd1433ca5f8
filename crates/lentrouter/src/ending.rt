// How a router's call over a lent state ends: the place put, the address handed out, the rest told in one number.
ghost use Rattle.std.specs.Prelude.{◌≡◌, Err};
ghost use Rattle.refusal.specs.declared.To.TheVariants as destination;
ghost use Rattle.handed.specs.Code.{coded};
ghost use Rattle.lentrouter.specs.Router.{EndsTurn};

use handed::{coded, hand_out};
use inplace::changing::put_place;
use places::place::Place;
use refusal::{Outcome, Refusal, To};

// The number of a refusal that writes nothing.
pub(crate) fn refused(why: Refusal) -> u32
    ensures { result ≡ coded (Err why) destination.Nobody 0 }
{
    coded(Err(why), To::Nobody, 0)
}

// A turn of place i is over.
pub(crate) fn end_turn(t: Outcome<Place>, i: usize, state: &mut [u8], to: &mut [u8; 6]) -> u32
    ensures { EndsTurn t i state.old to.old result state.new to.new }
{
    put_place(state, i, t.state);
    hand_out(t.to, to);
    coded(t.answer, t.to, t.written)
}
