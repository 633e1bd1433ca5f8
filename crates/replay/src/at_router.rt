// Lines on the router: their arguments, and the call.
use asked::arguments::{fixed_at, number_at, number_to};
use asked::verb::RouterCall;
use hall::state::{Hall, Stepped};

// The word that says a message, where one does.
pub fn message_word(c: RouterCall) -> Option<usize> {
    match c {
        RouterCall::Request | RouterCall::Closed => Some(3),
        RouterCall::Reply => Some(2),
        RouterCall::Beacon | RouterCall::Close => None,
    }
}

// `beacon NOW SERIAL`
fn beacon(hall: Hall, clock: u64, line: &[u8], out: &mut [u8]) -> Option<Stepped> {
    let Some(serial) = number_to(line, 2, 65535) else {
        return None;
    };
    Some(hall::at_router::beacon(hall, clock, serial as u16, out))
}

// A line on the router, where its words can be read; its clock is the first argument. `request NOW FROM MESSAGE`, `reply NOW MESSAGE`,
// `close NOW TO`, `closed NOW FROM MESSAGE`
pub fn call(hall: Hall, c: RouterCall, line: &[u8], m: &[u8], out: &mut [u8]) -> Option<Stepped> {
    let clock = number_at(line, 1)?;
    let step = match c {
        RouterCall::Beacon => return beacon(hall, clock, line, out),
        RouterCall::Request => hall::at_router::request(hall, clock, fixed_at(line, 2)?, m, out),
        RouterCall::Reply => hall::at_router::reply(hall, clock, m, out),
        RouterCall::Close => hall::at_router::close(hall, clock, fixed_at(line, 2)?, out),
        RouterCall::Closed => hall::at_router::closed(hall, clock, fixed_at(line, 2)?, m),
    };
    Some(step)
}
