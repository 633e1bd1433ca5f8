// The router's beacon.
ghost use Rattle.std.specs.Prelude.{true, ◌≡◌};
ghost use Rattle.object.specs.declared.family.Family.TheVariants.{Misp};
ghost use Rattle.message.specs.Writing.{Writes};
ghost use Rattle.places.specs.State.{groups_of};
ghost use Rattle.refusal.specs.Step.{Leaves};
ghost use Rattle.router.specs.Beacon.{no_extras, beacon_of, beaconed};

use beacons::beacon::Extras;
use object::family::Family;
use places::state::{Router, Settings};
use refusal::{Outcome, Refusal, To, refused, written};

// No optional object.
fn no_extras() -> Extras
    ensures { result ≡ no_extras }
{
    Extras {
        position: None,
        left: None,
        filter: None,
        uplink: None,
        channel: None,
    }
}

// The bytes of the groups that count.
#[tactic(auto, unfolding(places::specs::State::groups_of), using(crate::proofs::BeaconLaws::groups_counted))]
fn groups(s: &Settings) -> &[u8]
    ensures { result.now ≡ groups_of s.now }
{
    &s.groups[..4 * s.grouped.min(Settings::GROUP_BYTES / 4)]
}

// A beacon: the clock as stamp, the caller's serial, types 2 and 3, our network number.
pub fn write_beacon(s: Settings, clock: u64, serial: u16, out: &mut [u8]) -> Result<usize, Refusal>
    ensures { Writes Misp true (beacon_of s clock serial) out.old out.new result }
{
    let types = [0u8, 2, 0, 3];
    let layers = terms::list_of(s.network);
    beacons::beacon::write_beacon(
        out,
        clock,
        groups(&s),
        serial,
        s.interval,
        &types,
        &layers,
        no_extras(),
    )
}

// The router's beacon goes to everyone: 20, 7.
pub fn beacon(r: Router, clock: u64, serial: u16, out: &mut [u8]) -> Outcome<Router>
    ensures { Leaves (beaconed r clock serial out.old) result out.new }
{
    if out.len() < Family::Misp.limit() {
        return refused(Refusal::SmallOutput, r);
    }
    if clock < r.clock {
        return refused(Refusal::ClockBack, r);
    }
    let q = places::state::lapse(r, clock);
    let w = write_beacon(q.settings, clock, serial, out);
    written(w, Ok(()), q, q, To::Everyone)
}
