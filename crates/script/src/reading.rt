// What a word says: a number in decimal, or a byte string in hex.
ghost use Rattle.std.specs.Prelude.{◌≡◌};
ghost use Rattle.script.specs.Decimal.{decimal_of};
ghost use Rattle.script.specs.Hex.{is_hex, hex_of, size_of, ReadInto};

// A number: digits alone, and below 2^64.
pub fn decimal(word: &[u8]) -> Option<u64>
    ensures { result ≡ decimal_of word.now }
{
    if word.is_empty() {
        return None;
    }
    let mut n: u64 = 0;
    for &b in word {
        let d = char::from(b).to_digit(10)?;
        n = n.checked_mul(10)?.checked_add(u64::from(d))?;
    }
    Some(n)
}

// Whether a word is an even number of digits, and some.
fn is_hex(word: &[u8]) -> bool
    ensures { result ≡ is_hex word.now }
{
    !word.is_empty() && word.len() % 2 == 0 && word.iter().all(u8::is_ascii_hexdigit)
}

// How many bytes a word says, without reading them.
pub fn hex_size(word: &[u8]) -> Option<usize>
    ensures { result ≡ size_of (hex_of word.now) }
{
    if word == b"-".as_slice() {
        return Some(0);
    }
    is_hex(word).then_some(word.len() / 2)
}

// Reads a byte string to the start of a buffer; past it the buffer stays, and where the word is bad or too long, all of it.
pub fn unhex(word: &[u8], out: &mut [u8]) -> Option<usize>
    ensures { ReadInto word.now out.old out.new result }
{
    let n = hex_size(word)?;
    if out.len() < n {
        return None;
    }
    for i in 0..n {
        let high = char::from(word[2 * i]).to_digit(16).unwrap();
        let low = char::from(word[2 * i + 1]).to_digit(16).unwrap();
        out[i] = (high * 16 + low) as u8;
    }
    Some(n)
}
