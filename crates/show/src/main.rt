// Shows a MISP message from standard input (the paper, 'Table of proved examples'): Code and Length, then Type and Length of each object but
// padding, in order; or the refusal, 1 to 4. The first 65,536 bytes are read.
#![tactic(auto)]

ghost use Rattle.std.specs.Prelude.{◌≤◌, IfOk, length};

use object::family::Family;
use object::objects::Objects;
use refusal::Refusal;
use std::io::{self, Read};

// How many bytes of the input are read.
const MOST: usize = 65536;

// The five codes of control messages.
fn is_control(code: u8) -> bool {
    matches!(code, 1 | 3 | 4 | 8 | 9)
}

// The Length of a message that can be shown, or its refusal.
fn sound_end(m: &[u8]) -> Result<usize, Refusal> {
    let end = message::reading::head(m, Family::Misp)?;
    if !is_control(octets::number::byte_at(m, 0)) {
        return Err(Refusal::OtherCode);
    }
    if object::walk::walk(message::reading::body(m, Family::Misp, end), Family::Misp).is_err() {
        return Err(Refusal::BrokenObject);
    }
    Ok(end)
}

// Code and Length of a message, and Type and Length of each object, each on a line; or `refused N`.
fn show(rt: &impl Print, m: &[u8]) -> io::Result<()> {
    let end = match sound_end(m) {
        Ok(end) => end,
        Err(why) => return println!(rt; "refused {why}"),
    };
    println!(rt; "{} {end}", octets::number::byte_at(m, 0))?;
    for o in Objects::of(message::reading::body(m, Family::Misp, end), Family::Misp) {
        println!(rt; "{} {}", o.kind, 2 + o.value.len())?;
    }
    Ok(())
}

// Reads until the buffer is full or the input ends, and says how much was read.
// Stays: std's `read_to_end` fills a Vec, whose memory would add to the axioms of `show` that README.md lists; nothing new is assumed.
fn read_full<R: Read>(from: &mut R, buffer: &mut [u8]) -> io::Result<usize>
    ensures { IfOk result (λ n. n ≤ length buffer.new) }
{
    let mut at: usize = 0;
    while at < buffer.len() {
        let n = from.read(&mut buffer[at..])?;
        if n == 0 {
            return Ok(at);
        }
        at += n;
    }
    Ok(at)
}

fn main(rt: HostRuntime) -> io::Result<()> {
    let mut buffer = [0u8; MOST];
    let n = read_full(&mut rt.reader(), &mut buffer)?;
    show(&rt, &buffer[..n])
}
