// A number that may be missing, over the boundary: 2^64-1 says that there is none.
ghost use Rattle.std.specs.Prelude.{◌≡◌};
ghost use Rattle.handed.specs.Missing.{number_said, optional_said};

// No number: no field that may be missing reaches it.
pub const NONE: u64 = 0xffffffffffffffff;

// Handed out.
pub fn said(o: Option<u64>) -> u64
    ensures { result ≡ number_said o }
{
    match o {
        None => NONE,
        Some(n) => n,
    }
}

// Handed in.
#[tactic(auto, unfolding(crate::specs::Missing::optional_said))]
pub fn optional(n: u64) -> Option<u64>
    ensures { result ≡ optional_said n }
{
    if n == NONE { None } else { Some(n) }
}
