// The state of a router: its settings, its clock, and its 64 places one after the other.
ghost use Rattle.std.specs.Prelude.{◌≡◌};
ghost use Rattle.laid.specs.Field.{Keeps};
ghost use Rattle.storedrouter.specs.Router.{router_from, router_bytes, places_from};

use crate::place::{place_bytes, place_from};
use crate::settings::{settings_bytes, settings_from};
use crate::{place, settings};
use laid::stored::{Stored, read};
use octets::number::part;
use octets::put::put_bytes;
use places::place::Place;
use places::state::Router;
use std::array;

// Where the clock stands: past the settings.
pub const CLOCK: usize = settings::SIZE;

// Where the first place stands: past the clock.
pub const PLACES: usize = CLOCK + 8;

// How many bytes the state of a router has.
pub const SIZE: usize = PLACES + Place::COUNT * place::SIZE;

// The places, past settings and clock.
fn places_from(s: &[u8]) -> [Place; Place::COUNT]
    ensures { result ≡ places_from 64 s.now }
{
    array::from_fn(|i| place_from(part(s, PLACES + i * place::SIZE, place::SIZE)))
}

// The router that a byte string holds; what is missing counts as zeros.
#[tactic(auto, unfolding(crate::specs::Router::router_from))]
pub fn load(s: &[u8]) -> Router
    ensures { result ≡ router_from s.now }
{
    Router {
        settings: settings_from(part(s, 0, settings::SIZE)),
        clock: read(s, CLOCK),
        places: places_from(s),
    }
}

// The bytes of a router, of which it is loaded again.
pub fn bytes(r: Router) -> [u8; SIZE]
    ensures { Keeps router_bytes router_from r result }
{
    let mut t = [0u8; SIZE];
    put_bytes(&mut t, 0, &settings_bytes(r.settings));
    r.clock.put(&mut t, CLOCK);
    for i in 0..Place::COUNT {
        let place = place_bytes(r.places[i]);
        put_bytes(&mut t, PLACES + i * place::SIZE, &place);
    }
    t
}
