// The answer to a line.
use asked::arguments::{bytes_at, number_at};
use asked::verb::{Verb, verb_of};
use hall::state::{Hall, Stepped};
use octets::number::part;
use told::printing::{put_answer, put_error};

// The most bytes that a line says in hex.
pub const BYTES: usize = 150000;

// The buffer of a line of at most twice as many bytes, as nearly all are: two digits say a byte, and a small buffer is quickly zeroed.
const FEW: usize = 8192;

// The word of a line that says a message, where one does.
fn message_word(v: Verb) -> Option<usize> {
    match v {
        Verb::AtRouter(c) => crate::at_router::message_word(c),
        Verb::AtNode(c) => crate::at_node::message_word(c),
        Verb::Login => Some(2),
        Verb::Read | Verb::ReadAuth => Some(1),
        _ => None,
    }
}

// The message that a line says, read to the start of a buffer.
fn message_at(line: &[u8], v: Verb, out: &mut [u8]) -> Option<usize> {
    match message_word(v) {
        Some(word) => bytes_at(line, word, out),
        None => Some(0),
    }
}

// A call on one of the parties, where the line's words can be read.
fn call(
    hall: Hall,
    v: Verb,
    line: &[u8],
    m: &[u8],
    books: &[u8],
    out: &mut [u8],
) -> Option<Stepped> {
    match v {
        Verb::AtRouter(c) => crate::at_router::call(hall, c, line, m, out),
        Verb::AtNode(c) => crate::at_node::call(hall, c, line, m, out),
        Verb::Login => crate::at_server::login(hall, line, books, m, out),
        _ => None,
    }
}

// What a line left and said, with the output that its call wrote to.
fn answer_step(
    hall: &mut Hall,
    step: Option<Stepped>,
    out: &[u8],
    text: &mut [u8],
    at: usize,
) -> usize {
    match step {
        None => put_error(text, at),
        Some(Stepped { hall: after, said }) => {
            *hall = after;
            put_answer(text, at, out, said)
        }
    }
}

// The answer to a call, whose output buffer has the room that was set.
fn answer_call(
    hall: &mut Hall,
    v: Verb,
    line: &[u8],
    m: &[u8],
    books: &[u8],
    text: &mut [u8],
    at: usize,
) -> usize {
    let mut out = [0u8; Hall::ROOM];
    let room = hall.room.min(out.len());
    let step = call(*hall, v, line, m, books, &mut out[..room]);
    answer_step(hall, step, &out, text, at)
}

// The answer to a line that says a message, which is read to a buffer, or makes a call without one.
fn answer_said(
    hall: &mut Hall,
    v: Verb,
    line: &[u8],
    scratch: &mut [u8],
    books: &[u8],
    text: &mut [u8],
    at: usize,
) -> usize {
    let Some(n) = message_at(line, v, scratch) else {
        return put_error(text, at);
    };
    let m = part(scratch, 0, n);
    match v {
        Verb::Read => listed::air::read(text, at, m),
        Verb::ReadAuth => listed::wired::read(text, at, m),
        _ => answer_call(hall, v, line, m, books, text, at),
    }
}

// The same, with a buffer that has room for all that the line can say.
fn answer_message(
    hall: &mut Hall,
    v: Verb,
    line: &[u8],
    books: &[u8],
    text: &mut [u8],
    at: usize,
) -> usize {
    if line.len() <= 2 * FEW {
        let mut few = [0u8; FEW];
        return answer_said(hall, v, line, &mut few, books, text, at);
    }
    let mut many = [0u8; BYTES];
    answer_said(hall, v, line, &mut many, books, text, at)
}

// `state I`
fn answer_state(hall: &Hall, line: &[u8], text: &mut [u8], at: usize) -> usize {
    let Some(number) = number_at(line, 1) else {
        return put_error(text, at);
    };
    hall::reports::state(*hall, number as usize, text, at)
}

// The answer to a line, put into the text from a place on. An empty line and a comment print nothing.
pub fn answer(hall: &mut Hall, line: &[u8], books: &mut [u8], text: &mut [u8], at: usize) -> usize {
    if line.is_empty() || line.starts_with(b"#") {
        return at;
    }
    let Some(v) = verb_of(line) else {
        return put_error(text, at);
    };
    match v {
        Verb::Router => answer_step(hall, crate::setups::router(*hall, line), b"", text, at),
        Verb::Node => answer_step(hall, crate::setups::node(*hall, line), b"", text, at),
        Verb::Books => answer_step(hall, crate::setups::lend(*hall, line, books), b"", text, at),
        Verb::Room => answer_step(hall, crate::setups::room(*hall, line), b"", text, at),
        Verb::Taken => hall::reports::taken(*hall, text, at),
        Verb::Places => hall::reports::places(*hall, text, at),
        Verb::State => answer_state(hall, line, text, at),
        _ => answer_message(hall, v, line, books, text, at),
    }
}
