// What two ends agree on: security types and network numbers, in lists of 16-bit numbers.
#![tactic(auto)]

ghost use Rattle.std.specs.Prelude.{◌≡◌};
ghost use Rattle.octets.specs.Numbers.{bytes_of};
ghost use Rattle.terms.specs.Terms.{takes_type, lists, is_one_type};

// Whether we take a security type.
#[tactic(auto, unfolding(crate::specs::Terms::takes_type))]
pub fn takes_type(kind: u16) -> bool
    ensures { result ≡ takes_type kind }
{
    kind == 2 || kind == 3
}

// Whether a number stands in a list.
#[tactic(auto, using(crate::proofs::TermsLaws::lists_start, crate::proofs::TermsLaws::lists_here, crate::proofs::TermsLaws::lists_later, crate::proofs::TermsLaws::lists_end))]
pub fn is_listed(list: &[u8], x: u16) -> bool
    ensures { result ≡ lists x list.now }
{
    for i in 0..list.len() / 2 {
        if octets::number::number16(list, 2 * i) == x {
            return true;
        }
    }
    false
}

// The list of one number.
#[tactic(auto, unfolding(octets::specs::Numbers::bytes_of, octets::specs::Put::put, octets::specs::Put::put_in))]
pub fn list_of(x: u16) -> [u8; 2]
    ensures { result ≡ bytes_of 2 x }
{
    let mut list = [0u8; 2];
    octets::put::put_number(&mut list, 0, 2, u64::from(x));
    list
}

// Whether a list is one number, of a type that we take.
#[tactic(auto, using(crate::proofs::TermsLaws::one_number, crate::proofs::TermsLaws::not_one))]
pub fn is_one_type(list: &[u8]) -> bool
    ensures { result ≡ is_one_type list.now }
{
    list.len() == 2 && takes_type(octets::number::number16(list, 0))
}
