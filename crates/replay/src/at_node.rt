// Lines on the nodes: their arguments, and the call.
use asked::arguments::{fixed_at, number_at};
use asked::verb::NodeCall;
use hall::state::{Hall, Stepped};

// The word that says a message, where one does.
pub fn message_word(c: NodeCall) -> Option<usize> {
    match c {
        NodeCall::Hear => Some(4),
        NodeCall::Leave => None,
        NodeCall::Success | NodeCall::Failure | NodeCall::Left => Some(3),
    }
}

// A line on node I, where its words can be read; its clock stands after its number. `hear I NOW SEED MESSAGE`, `success I NOW MESSAGE`,
// `failure I NOW MESSAGE`, `left I NOW MESSAGE`, `leave I NOW`
pub fn call(hall: Hall, c: NodeCall, line: &[u8], m: &[u8], out: &mut [u8]) -> Option<Stepped> {
    let i = number_at(line, 1)? as usize;
    let clock = number_at(line, 2)?;
    let step = match c {
        NodeCall::Hear => hall::at_node::hear(hall, i, clock, fixed_at(line, 3)?, m, out),
        NodeCall::Leave => hall::at_node::leave(hall, i, clock, out),
        NodeCall::Success => hall::at_node::success(hall, i, clock, m),
        NodeCall::Failure => hall::at_node::failure(hall, i, clock, m),
        NodeCall::Left => hall::at_node::left(hall, i, clock, m),
    };
    Some(step)
}
