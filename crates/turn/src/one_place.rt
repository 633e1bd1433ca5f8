// One place of a state, and what a call makes of it.
ghost use Rattle.std.specs.Prelude.{◌≡◌};
ghost use Rattle.turn.specs.Outcome.{place_of};
ghost use Rattle.turn.specs.OnePlace.{turned_to};

use places::place::Place;
use places::state::Router;
use refusal::Outcome;

// The place with a number; past the last one the fresh place.
pub fn place_of(r: Router, i: usize) -> Place
    ensures { result ≡ place_of i r }
{
    if i < Place::COUNT {
        r.places[i]
    } else {
        Place::fresh()
    }
}

// The outcome of a turn at place i; the state changes in place, which saves copies of it.
pub fn turned(q: Router, i: usize, t: Outcome<Place>) -> Outcome<Router>
    ensures { result ≡ turned_to q i t }
{
    let mut state = q;
    if i < Place::COUNT {
        state.places[i] = t.state;
    }
    Outcome {
        answer: t.answer,
        state,
        written: t.written,
        to: t.to,
    }
}
