// The reports of the hall, put into a text.
ghost use Rattle.told.specs.Print.{Puts};
ghost use Rattle.hall.specs.Reports.{taken_answer, places_answer, state_answer};

use crate::state::{Hall, is_present, node_of, router_of};
use told::printing::put_error;

// `taken`
#[tactic(auto, unfolding(crate::specs::Reports::taken_answer))]
pub fn taken(hall: Hall, text: &mut [u8], at: usize) -> usize
    ensures { Puts (taken_answer hall) text.old at text.new result }
{
    if !hall.installed {
        return put_error(text, at);
    }
    let r = router_of(hall);
    told::reports::put_taken(text, at, r)
}

// `places`
#[tactic(auto, unfolding(crate::specs::Reports::places_answer))]
pub fn places(hall: Hall, text: &mut [u8], at: usize) -> usize
    ensures { Puts (places_answer hall) text.old at text.new result }
{
    if !hall.installed {
        return put_error(text, at);
    }
    let r = router_of(hall);
    told::reports::put_places(text, at, r)
}

// `state I`
#[tactic(auto, unfolding(crate::specs::Reports::state_answer))]
pub fn state(hall: Hall, i: usize, text: &mut [u8], at: usize) -> usize
    ensures { Puts (state_answer i hall) text.old at text.new result }
{
    if !is_present(hall, i) {
        return put_error(text, at);
    }
    let n = node_of(hall, i);
    told::reports::put_node(text, at, n)
}
