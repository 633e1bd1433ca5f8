// A part of a byte string as one value: where it stands.
ghost use Rattle.std.specs.Prelude.{◌≡◌};
ghost use Rattle.octets.specs.Part.{bytes_at};

// Where it starts, and how many bytes it has.
#[derive(Clone, Copy, Debug, PartialEq, Eq, Hash)]
pub struct Part {
    pub at: usize,
    pub len: usize,
}

// Its bytes, as far as there are any.
#[tactic(auto, unfolding(crate::specs::Part::bytes_at))]
pub fn bytes_at(s: &[u8], p: Part) -> &[u8]
    ensures { result.now ≡ bytes_at s.now p }
{
    super::number::part(s, p.at, p.len)
}
