// Calls on the router of the hall.
ghost use Rattle.std.specs.Prelude.{◌≡◌, []};
ghost use Rattle.places.specs.declared.state.Router.{Router};
ghost use Rattle.router.specs.Beacon.{beaconed};
ghost use Rattle.entering.specs.Request.{requested};
ghost use Rattle.settling.specs.Reply.{replied};
ghost use Rattle.router.specs.Close.{closing, closed};
ghost use Rattle.refusal.specs.Step.{Leaves};
ghost use Rattle.hall.specs.Calls.{by_router, at_router};

use crate::state::{Hall, Stepped, router_of, said, unread, with_router};
use places::state::Router;
use refusal::Outcome;

// The router as its call left it, and the answer of that call.
fn after(hall: Hall, o: Outcome<Router>) -> Stepped
    ensures { result ≡ by_router hall o }
{
    Stepped {
        hall: with_router(hall, o.state),
        said: said(o.answer, o.written, o.to),
    }
}

// `beacon NOW SERIAL`
pub fn beacon(hall: Hall, clock: u64, serial: u16, out: &mut [u8]) -> Stepped
    ensures { Leaves (at_router hall (λ (r : Router). beaconed r clock serial out.old) out.old) result out.new }
{
    if !hall.installed {
        return unread(hall);
    }
    let r = router_of(hall);
    after(hall, router::beacon::beacon(r, clock, serial, out))
}

// `request NOW FROM MESSAGE`
pub fn request(hall: Hall, clock: u64, from: [u8; 6], m: &[u8], out: &mut [u8]) -> Stepped
    ensures { Leaves (at_router hall (λ (r : Router). requested r clock from m.now out.old) out.old) result out.new }
{
    if !hall.installed {
        return unread(hall);
    }
    let r = router_of(hall);
    after(hall, entering::request(r, clock, from, m, out))
}

// `reply NOW MESSAGE`
pub fn reply(hall: Hall, clock: u64, m: &[u8], out: &mut [u8]) -> Stepped
    ensures { Leaves (at_router hall (λ (r : Router). replied r clock m.now out.old) out.old) result out.new }
{
    if !hall.installed {
        return unread(hall);
    }
    let r = router_of(hall);
    after(hall, settling::reply(r, clock, m, out))
}

// `close NOW TO`
pub fn close(hall: Hall, clock: u64, to: [u8; 6], out: &mut [u8]) -> Stepped
    ensures { Leaves (at_router hall (λ (r : Router). closing r clock to out.old) out.old) result out.new }
{
    if !hall.installed {
        return unread(hall);
    }
    let r = router_of(hall);
    after(hall, router::close::close(r, clock, to, out))
}

// `closed NOW FROM MESSAGE`
pub fn closed(hall: Hall, clock: u64, from: [u8; 6], m: &[u8]) -> Stepped
    ensures { result ≡ (at_router hall (λ (r : Router). closed r clock from m.now) []).outcome }
{
    if !hall.installed {
        return unread(hall);
    }
    let r = router_of(hall);
    after(hall, router::close::closed(r, clock, from, m))
}
