// Two byte strings of a line, read to one buffer.
use asked::arguments::bytes_at;

// Two byte strings, read to the start of a buffer, the second after the first: their lengths, where both can be read.
pub fn two_at(line: &[u8], word: usize, other: usize, out: &mut [u8]) -> Option<(usize, usize)> {
    let first = bytes_at(line, word, out)?;
    if out.len() < first {
        return None;
    }
    let second = bytes_at(line, other, &mut out[first..])?;
    Some((first, second))
}
