// What is printed, put into a lent text from a place on; each answers the place past it.
// Stays: a lent text and an offset, as in `script::printing`.
ghost use Rattle.std.specs.Prelude.{◌∷◌};
ghost use Rattle.script.specs.Decimal.{decimal_text};
ghost use Rattle.script.specs.Hex.{hexed};
ghost use Rattle.script.specs.Words.{space};
ghost use Rattle.told.specs.Print.{Puts, error_text, no_text, next_number, next_bytes, receiver, answer_text};

use octets::number::part;
use refusal::{Refusal, To, answer_number};

// The answer of a call, how many bytes it wrote and to whom they go.
#[derive(Clone, Copy)]
pub struct Said {
    pub answer: Result<(), Refusal>,
    pub written: usize,
    pub to: To,
}

// Bytes as they are.
pub fn put(text: &mut [u8], at: usize, s: &[u8]) -> usize
    ensures { Puts s.now text.old at text.new result }
{
    at + script::printing::put_text(text, at, s)
}

// A number in decimal.
pub fn put_decimal(text: &mut [u8], at: usize, n: u64) -> usize
    ensures { Puts (decimal_text n) text.old at text.new result }
{
    at + script::printing::put_decimal(text, at, n)
}

// A byte string in hexadecimal; `-` for an empty one.
pub fn put_hex(text: &mut [u8], at: usize, value: &[u8]) -> usize
    ensures { Puts (hexed value.now) text.old at text.new result }
{
    at + script::printing::put_hex(text, at, value)
}

// A space, and a number after it.
pub fn next_decimal(text: &mut [u8], at: usize, n: u64) -> usize
    ensures { Puts (next_number n) text.old at text.new result }
{
    let space = put(text, at, b" ");
    put_decimal(text, space, n)
}

// A space, and a byte string after it.
pub fn next_hex(text: &mut [u8], at: usize, value: &[u8]) -> usize
    ensures { Puts (next_bytes value.now) text.old at text.new result }
{
    let space = put(text, at, b" ");
    put_hex(text, space, value)
}

// A space, and `-` for what is missing.
pub fn next_none(text: &mut [u8], at: usize) -> usize
    ensures { Puts no_text text.old at text.new result }
{
    put(text, at, b" -")
}

// `error`, for a line that makes no call.
pub fn put_error(text: &mut [u8], at: usize) -> usize
    ensures { Puts error_text text.old at text.new result }
{
    put(text, at, b"error\n")
}

// The address that bytes go to; `-` for nobody, everyone, or the server's link.
fn next_to(text: &mut [u8], at: usize, to: To) -> usize
    ensures { Puts (space ∷ receiver to) text.old at text.new result }
{
    match to {
        To::Address(address) => next_hex(text, at, &address),
        To::Nobody => next_none(text, at),
        To::Everyone => next_none(text, at),
        To::Server => next_none(text, at),
    }
}

// A call's answer, `N BYTES TO`, with the output that it wrote to; `error` where no call was made.
pub fn put_answer(text: &mut [u8], at: usize, out: &[u8], said: Option<Said>) -> usize
    ensures { Puts (answer_text said out.now) text.old at text.new result }
{
    match said {
        None => put_error(text, at),
        Some(said) => {
            let number = put_decimal(text, at, answer_number(said.answer) as u64);
            let bytes = next_hex(text, number, part(out, 0, said.written));
            let receiver = next_to(text, bytes, said.to);
            put(text, receiver, b"\n")
        }
    }
}
