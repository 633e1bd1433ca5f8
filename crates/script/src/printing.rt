// Texts, numbers and byte strings printed into a lent buffer. Each answers how many bytes it put, and 0 where it had no room and put nothing.
// Stays: a lent text and an offset, and no `Display`, whose law says what is written only where `fmt` answers Ok; these cannot fail.
ghost use Rattle.std.specs.Prelude.{◌≡◌, ◌<◌};
ghost use Rattle.script.specs.Digits.{glyph_of};
ghost use Rattle.script.specs.Decimal.{decimal_text};
ghost use Rattle.script.specs.Hex.{hexed};
ghost use Rattle.script.specs.Print.{Printed};

use octets::range::has_room;

// The digit that counts `d`, in lower case.
#[tactic(auto, using(crate::proofs::PrintLaws::glyph_low, crate::proofs::PrintLaws::glyph_high))]
fn glyph(d: u8) -> u8
    requires { d < 16 }
    ensures { result ≡ glyph_of d }
{
    if d < 10 { b'0' + d } else { b'a' - 10 + d }
}

// A text as it is.
pub fn put_text(out: &mut [u8], at: usize, text: &[u8]) -> usize
    ensures { Printed text.now out.old at out.new result }
{
    octets::put::put_bytes(out, at, text);
    if has_room(out.len(), at, text.len()) {
        text.len()
    } else {
        0
    }
}

// A byte string in hex, `-` for none.
pub fn put_hex(out: &mut [u8], at: usize, value: &[u8]) -> usize
    ensures { Printed (hexed value.now) out.old at out.new result }
{
    if value.is_empty() {
        return put_text(out, at, b"-");
    }
    let size = 2 * value.len();
    if !has_room(out.len(), at, size) {
        return 0;
    }
    for i in 0..value.len() {
        let b = value[i];
        out[at + 2 * i] = glyph(b / 16);
        out[at + 2 * i + 1] = glyph(b % 16);
    }
    size
}

// A number in decimal, with no leading zero; its digits are made from the last to the first.
// Stays: a `while`, since how many digits there are shows when the last is made.
pub fn put_decimal(out: &mut [u8], at: usize, n: u64) -> usize
    ensures { Printed (decimal_text n) out.old at out.new result }
{
    let mut text = [0u8; 20];
    let mut first: usize = 20;
    let mut left = n;
    while 10 <= left {
        first -= 1;
        text[first] = glyph((left % 10) as u8);
        left /= 10;
    }
    first -= 1;
    text[first] = glyph(left as u8);
    put_text(out, at, &text[first..])
}
