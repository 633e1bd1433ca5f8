// Byte strings written into a lent buffer; what stands before and past them stays.
ghost use Rattle.std.specs.Prelude.{◌≡◌};
ghost use Rattle.octets.specs.Numbers.{bytes_of};
ghost use Rattle.octets.specs.Put.{put_in, fitted};

use super::range::has_room;

// Writes a byte string at an offset where it has room, and nothing where it has none.
// Stays: a `for`, since with `copy_from_slice` the archive for C asks for `memmove`, which it may not (tests/boundary).
pub fn put_bytes(out: &mut [u8], at: usize, value: &[u8])
    ensures { out.new ≡ put_in out.old at value.now }
{
    if has_room(out.len(), at, value.len()) {
        for i in 0..value.len() {
            out[at + i] = value[i];
        }
    }
}

// Writes the `size` lowest bytes of a number, most significant first, where they have room.
pub fn put_number(out: &mut [u8], at: usize, size: usize, n: u64)
    ensures { out.new ≡ put_in out.old at (bytes_of size n) }
{
    if has_room(out.len(), at, size) {
        let mut left = n;
        for i in (0..size).rev() {
            out[at + i] = (left % 256) as u8;
            left /= 256;
        }
    }
}

// A byte string as an array: cut off, or filled up with zeros.
#[tactic(auto, using(crate::proofs::FittedLaws::fitted_long, crate::proofs::FittedLaws::fitted_short))]
pub fn fitted<const N: usize>(value: &[u8]) -> [u8; N]
    ensures { result ≡ fitted N value.now }
{
    if let Some(whole) = value.first_chunk::<N>() {
        return *whole;
    }
    let mut t = [0u8; N];
    put_bytes(&mut t, 0, value);
    t
}
