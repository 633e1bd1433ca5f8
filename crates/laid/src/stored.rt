// One field of a record, whatever its type: how it is put at an offset, and read there.
ghost use Rattle.std.specs.Prelude.{◌≡◌, ◌+◌, ◌^◌, ◌<◌, ℕ, Bool, ℤ, List, ◌++◌, Option, Some, None, ⊤, refl, length, take, drop, slice_index};
ghost use lib.Signed.{mag};
ghost use lib.Dec.{lit<};
ghost use Rattle.octets.specs.Numbers.{bytes_of, signed_of, unsigned_of};
ghost use Rattle.octets.specs.Put.{put_in};
ghost use Rattle.laid.specs.Field.{flag_bytes, flag_of, number_at, array_at, held_from, held_stored};
ghost use Rattle.laid.specs.Around.{around_flag, around_number, around_signed, around_array, around_held, StringHeld};

use crate::field::{array_at, flag, held_from, held_stored};
use held::Held;
use octets::number::{number16, number32, number64, part};
use octets::put::{put_bytes, put_number};

pub trait Stored: Copy {
    // the bytes of a value; the value that stands at an offset; what a value of the type keeps to
    ghost bytes: { Self → List ℕ };

    ghost standing: { ℕ → List ℕ → Self };

    ghost held: { Self → Type 0 };

    fn read(s: &[u8], at: usize) -> Self
        ensures { result ≡ standing at s.now };

    fn put(self, out: &mut [u8], at: usize)
        ensures { out.new ≡ put_in out.old at (bytes self) };

    // what was put is read again, whatever stands around it
    ghost undone: { (x : Self) (before after : List ℕ) → held x → standing (length before) (before ++ (bytes x ++ after)) ≡ x };
}

impl Stored for bool {
    ghost bytes = { flag_bytes };

    ghost standing = { λ at s. flag_of (slice_index s at) };

    ghost held = { λ x. ⊤ };

    ghost undone = { λ x before after h. around_flag x before after };

    fn read(s: &[u8], at: usize) -> bool {
        flag(s, at)
    }

    fn put(self, out: &mut [u8], at: usize) {
        put_bytes(out, at, &[u8::from(self)]);
    }
}

impl Stored for u16 {
    ghost bytes = { bytes_of 2 };

    ghost standing = { number_at 2 };

    ghost held = { λ x. x < 2 ^ 16 };

    ghost undone = { λ x before after h. around_number 2 x before after h };

    fn read(s: &[u8], at: usize) -> u16 {
        number16(s, at)
    }

    fn put(self, out: &mut [u8], at: usize) {
        put_number(out, at, 2, u64::from(self));
    }
}

impl Stored for u32 {
    ghost bytes = { bytes_of 4 };

    ghost standing = { number_at 4 };

    ghost held = { λ x. x < 2 ^ 32 };

    ghost undone = { λ x before after h. around_number 4 x before after h };

    fn read(s: &[u8], at: usize) -> u32 {
        number32(s, at)
    }

    fn put(self, out: &mut [u8], at: usize) {
        put_number(out, at, 4, u64::from(self));
    }
}

impl Stored for u64 {
    ghost bytes = { bytes_of 8 };

    ghost standing = { number_at 8 };

    ghost held = { λ x. x < 2 ^ 64 };

    ghost undone = { λ x before after h. around_number 8 x before after h };

    fn read(s: &[u8], at: usize) -> u64 {
        number64(s, at)
    }

    fn put(self, out: &mut [u8], at: usize) {
        put_number(out, at, 8, self);
    }
}

impl<const N: usize> Stored for [u8; N] {
    ghost bytes = { λ x. x };

    ghost standing = { array_at N };

    ghost held = { λ x. length x ≡ N };

    ghost undone = { λ x before after h. around_array N x before after h };

    fn read(s: &[u8], at: usize) -> [u8; N] {
        array_at::<N>(s, at)
    }

    fn put(self, out: &mut [u8], at: usize) {
        put_bytes(out, at, &self);
    }
}

impl Stored for usize {
    ghost bytes = { bytes_of 8 };

    ghost standing = { number_at 8 };

    ghost held = { λ x. x < 2 ^ 64 };

    ghost undone = { λ x before after h. around_number 8 x before after h };

    fn read(s: &[u8], at: usize) -> usize {
        number64(s, at) as usize
    }

    fn put(self, out: &mut [u8], at: usize) {
        put_number(out, at, 8, self as u64);
    }
}

impl Stored for i16 {
    ghost bytes = { λ x. bytes_of 2 (unsigned_of 16 x) };

    ghost standing = { λ at s. signed_of 16 (number_at 2 at s) };

    ghost held = { λ x. mag x < 2 ^ 15 };

    ghost undone = { λ x before after h. around_signed 2 16 x before after refl (lit< tt) h };

    #[tactic(auto, using(octets::proofs::SignedLaws::signed_cast))]
    fn read(s: &[u8], at: usize) -> i16 {
        number16(s, at).cast_signed()
    }

    #[tactic(auto, using(octets::proofs::SignedLaws::unsigned_cast))]
    fn put(self, out: &mut [u8], at: usize) {
        put_number(out, at, 2, u64::from(self.cast_unsigned()));
    }
}

impl Stored for i32 {
    ghost bytes = { λ x. bytes_of 4 (unsigned_of 32 x) };

    ghost standing = { λ at s. signed_of 32 (number_at 4 at s) };

    ghost held = { λ x. mag x < 2 ^ 31 };

    ghost undone = { λ x before after h. around_signed 4 32 x before after refl (lit< tt) h };

    #[tactic(auto, using(octets::proofs::SignedLaws::signed_cast))]
    fn read(s: &[u8], at: usize) -> i32 {
        number32(s, at).cast_signed()
    }

    #[tactic(auto, using(octets::proofs::SignedLaws::unsigned_cast))]
    fn put(self, out: &mut [u8], at: usize) {
        put_number(out, at, 4, u64::from(self.cast_unsigned()));
    }
}

// A byte string with its length, whole.
impl Stored for Held {
    ghost bytes = { held_stored };

    ghost standing = { λ at s. held_from (take 261 (drop at s)) };

    ghost held = { StringHeld };

    ghost undone = { λ x before after h. around_held x h before after };

    fn read(s: &[u8], at: usize) -> Held {
        held_from(part(s, at, 261))
    }

    fn put(self, out: &mut [u8], at: usize) {
        put_bytes(out, at, &held_stored(self));
    }
}

// What stands at an offset; its type says how it is read.
pub fn read<T: Stored>(s: &[u8], at: usize) -> T
    ensures { result ≡ T.standing at s.now }
{
    T::read(s, at)
}
