// Numbers in bytes, most significant byte first (the paper, 'MISP messages').
ghost use Rattle.std.specs.Prelude.{◌≡◌, ◌≤◌, length, take, drop, slice_index};
ghost use Rattle.octets.specs.Choice.{bit_of};
ghost use Rattle.octets.specs.Numbers.{number_of};

// A test as a byte: 1 where it holds, else 0.
pub fn bit(holds: bool) -> u8
    ensures { result ≡ bit_of holds }
{
    if holds { 1 } else { 0 }
}

// The byte at an offset; past the end it is 0.
pub fn byte_at(s: &[u8], at: usize) -> u8
    ensures { result ≡ slice_index s.now at }
{
    if at < s.len() { s[at] } else { 0 }
}

// The number of the first bytes, at most eight.
fn first(value: &[u8], size: usize) -> u64
    requires { (size ≤ 8) × (size ≤ length value.now) }
    ensures { result ≡ number_of (take size value.now) }
{
    let mut n: u64 = 0;
    for i in 0..size {
        n = n * 256 + u64::from(value[i]);
    }
    n
}

// The number that a byte string spells; of more than eight bytes the first eight count.
pub fn number(value: &[u8]) -> u64
    ensures { result ≡ number_of (take 8 value.now) }
{
    // eight are in the loop's bound, so that they are read at once
    if 8 <= value.len() {
        return first(value, 8);
    }
    first(value, value.len())
}

// The part of at most `size` bytes from an offset on, as far as there are bytes.
pub fn part(s: &[u8], at: usize, size: usize) -> &[u8]
    ensures { result.now ≡ take size (drop at s.now) }
{
    if s.len() <= at {
        return &s[..0];
    }
    if s.len() - at <= size {
        return &s[at..];
    }
    let end = at + size;
    &s[at..end]
}

// The numbers of 64, 32 and 16 bits at an offset.
pub fn number64(s: &[u8], at: usize) -> u64
    ensures { result ≡ number_of (take 8 (drop at s.now)) }
{
    number(part(s, at, 8))
}

pub fn number32(s: &[u8], at: usize) -> u32
    ensures { result ≡ number_of (take 4 (drop at s.now)) }
{
    number(part(s, at, 4)) as u32
}

pub fn number16(s: &[u8], at: usize) -> u16
    ensures { result ≡ number_of (take 2 (drop at s.now)) }
{
    number(part(s, at, 2)) as u16
}
