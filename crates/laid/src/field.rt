// What all records share: flags, arrays of a fixed size, and byte strings with their length.
ghost use Rattle.std.specs.Prelude.{◌≡◌, slice_index};
ghost use Rattle.laid.specs.Field.{flag_of, array_at, held_from, held_stored};

use held::Held;
use octets::number::{byte_at, number64, part};
use octets::put::{fitted, put_bytes, put_number};

// A flag is set where its byte is 1.
pub fn flag(s: &[u8], at: usize) -> bool
    ensures { result ≡ flag_of (slice_index s.now at) }
{
    byte_at(s, at) == 1
}

// The array at an offset; past the end stand zeros.
#[tactic(auto, using(crate::proofs::FieldLaws::array_part))]
pub fn array_at<const N: usize>(s: &[u8], at: usize) -> [u8; N]
    ensures { result ≡ array_at N at s.now }
{
    fitted::<N>(part(s, at, N))
}

// A held byte string as it was stored: its whole array, and its length.
#[tactic(auto, unfolding(held::specs::Held::held_of, crate::specs::Field::array_at, crate::specs::Field::held_from))]
pub fn held_from(s: &[u8]) -> Held
    ensures { result ≡ held_from s.now }
{
    Held {
        bytes: array_at(s, 0),
        size: number64(s, Held::MOST) as usize,
    }
}

// Its bytes, as they are stored.
pub fn held_stored(h: Held) -> [u8; 261]
    ensures { result ≡ held_stored h }
{
    let mut t = [0u8; 261];
    put_bytes(&mut t, 0, &h.bytes);
    put_number(&mut t, Held::MOST, 8, h.size as u64);
    t
}
