// Equality of byte strings.
ghost use Rattle.std.specs.Prelude.{◌≡◌};
ghost use Rattle.octets.specs.Same.{same_bytes};

// Whether two byte strings have the same length and the same bytes.
// Stays: a loop, and not `a == b`: the edit `first_byte_only` turns one index of it, and no text of `a == b` is just that mistake.
#[tactic(auto, using(crate::proofs::SameLaws::same_step, crate::proofs::SameLaws::other_step, crate::proofs::SameLaws::at_end, crate::proofs::SameLaws::unequal_lengths))]
pub fn same(a: &[u8], b: &[u8]) -> bool
    ensures { result ≡ same_bytes a.now b.now }
{
    if a.len() != b.len() {
        return false;
    }
    for i in 0..a.len() {
        if a[i] != b[i] {
            return false;
        }
    }
    true
}
