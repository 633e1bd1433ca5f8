// Replay: the three parties from a script on standard input. Each line makes one call and prints its answer (docs/REPLAY.md).
#![tactic(auto)]

mod at_node; // lines on the nodes
mod at_router; // lines on the router
mod at_server; // the line on the server
mod line; // the answer to a line
mod setups; // setups, books, room
mod strings; // two byte strings of a line

use hall::state::Hall;
use octets::number::part;
use octets::put::put_bytes;
use std::io::{self, Read, Write};
use told::printing::put_error;

// The longest line, without its end.
const LINE: usize = 2 * line::BYTES;

// How much is read at once.
const BLOCK: usize = 65536;

// What is kept of a text that is to be written, and the room that one line's answer has in it.
const TEXT: usize = 65536;

const ANSWER: usize = 16384;

// The hall, how much of the line that is being read is there (nothing says so where it is too long), and how much text is to be written.
// Stays: the line, the books and the text are lent arrays, no Vec, since a heap puts three axioms more into README's row of this program.
#[derive(Drop)]
struct Replay {
    hall: Hall,
    len: Option<usize>,
    at: usize,
}

impl Replay {
    // Writes the text that is there.
    fn flush(&mut self, rt: &impl Print, text: &[u8]) -> io::Result<()> {
        io::writer(rt).write_all(part(text, 0, self.at))?;
        self.at = 0;
        Ok(())
    }

    // More of the line. One that does not fit is too long, whatever else it holds.
    fn gather(&mut self, line: &mut [u8], more: &[u8]) {
        let Some(len) = self.len else {
            return;
        };
        if len <= line.len() && more.len() <= line.len() - len {
            put_bytes(line, len, more);
            self.len = Some(len + more.len());
        } else {
            self.len = None;
        }
    }

    // The line's answer, after which the next line starts; where the text has no room for another answer it is written.
    fn end_line(
        &mut self,
        rt: &impl Print,
        line: &[u8],
        books: &mut [u8],
        text: &mut [u8],
    ) -> io::Result<()> {
        let at = self.at;
        self.at = match self.len {
            None => put_error(text, at),
            Some(len) => line::answer(&mut self.hall, part(line, 0, len), books, text, at),
        };
        self.len = Some(0);
        if TEXT - ANSWER < self.at {
            return self.flush(rt, text);
        }
        Ok(())
    }

    // The lines of a block; the last one may go on in the next block.
    fn take_block(
        &mut self,
        rt: &impl Print,
        block: &[u8],
        line: &mut [u8],
        books: &mut [u8],
        text: &mut [u8],
    ) -> io::Result<()> {
        let mut first = true;
        for piece in block.split(|b| *b == b'\n') {
            if !first {
                self.end_line(rt, line, books, text)?;
            }
            first = false;
            self.gather(line, piece);
        }
        Ok(())
    }

    // Reads once, what there is of the next block; whether there was any. At the input's end the last line may lack its end. What the lines
    // print is written before the next block is waited for.
    fn read_some(
        &mut self,
        rt: &(impl Print + Input),
        line: &mut [u8],
        books: &mut [u8],
        text: &mut [u8],
    ) -> io::Result<bool> {
        let mut block = [0u8; BLOCK];
        let n = rt.reader().read(&mut block)?;
        if n == 0 {
            self.end_line(rt, line, books, text)?;
        } else {
            self.take_block(rt, &block[..n], line, books, text)?;
        }
        self.flush(rt, text)?;
        Ok(n != 0)
    }
}

fn main(rt: HostRuntime) -> io::Result<()> {
    let mut line = [0u8; LINE];
    let mut books = [0u8; line::BYTES];
    let mut text = [0u8; TEXT];
    let mut replay = Replay {
        hall: hall::state::empty(),
        len: Some(0),
        at: 0,
    };
    // Block by block, until the input ends. A proved loop has to end, and nothing says that the input does: it counts its turns, to a number
    // that no run uses up.
    for _ in 0..u64::MAX {
        if !replay.read_some(&rt, &mut line, &mut books, &mut text)? {
            break;
        }
    }
    Ok(())
}
