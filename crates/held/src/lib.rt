// A byte string of at most 253 bytes that a state holds: a secret, a password, an account.
#![tactic(auto)]

ghost use Rattle.std.specs.Prelude.{◌≡◌, length};
ghost use Rattle.held.specs.Held.{held_of, held_bytes};

// The first `size` bytes count; a size past the array counts as the array's.
#[derive(Clone, Copy)]
pub struct Held {
    pub bytes: [u8; Held::MOST],
    pub size: usize,
}

impl Held {
    pub const MOST: usize = 253;

    // The bytes that count.
    #[tactic(auto, unfolding(crate::specs::Held::held_bytes))]
    pub fn as_slice(&self) -> &[u8]
        ensures { result.now ≡ held_bytes self.now }
    {
        &self.bytes[..size_of(*self)]
    }
}

// Holds a byte string; of a longer one the first 253 bytes.
#[tactic(auto, unfolding(crate::specs::Held::held_of))]
pub fn hold(value: &[u8]) -> Held
    ensures { result ≡ held_of value.now }
{
    Held {
        bytes: octets::put::fitted::<{ Held::MOST }>(value),
        size: value.len(),
    }
}

// How many bytes count.
#[tactic(auto, using(crate::proofs::HeldLaws::held_short, crate::proofs::HeldLaws::held_size))]
pub fn size_of(h: Held) -> usize
    ensures { result ≡ length (held_bytes h) }
{
    h.size.min(Held::MOST)
}
