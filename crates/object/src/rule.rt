// The rule of each type: which lengths an object of that type may have (the paper's table; document 004, table 1; document 003, 4).
ghost use Rattle.std.specs.Prelude.{◌≡◌};
ghost use Rattle.object.specs.Rule.{rule_of, rule_of_misp, rule_of_misauth, counts_for};

use crate::family::Family;

// The whole object's length, with its type and its length byte, is one number, or any, or 2 and a multiple of a unit; a flag's value is one
// byte, 0 or 1; of an unknown type none counts.
#[derive(Clone, Copy, Debug, PartialEq, Eq, Hash)]
pub enum Rule {
    Fixed(usize),
    Any,
    List(usize),
    Flag,
    Unknown,
}

// The rule of a MISP type, of a MISAUTH type, and of a type of either family.
#[tactic(auto, unfolding(crate::specs::Rule::rule_of_misp))]
fn rule_misp(kind: u8) -> Rule
    ensures { result ≡ rule_of_misp kind }
{
    match kind {
        2 => Rule::Fixed(10),
        3..=4 => Rule::Fixed(6),
        5..=6 | 8 => Rule::Any,
        9 => Rule::Fixed(14),
        10 | 20 => Rule::Fixed(3),
        11 => Rule::Flag,
        13 | 15..=17 => Rule::Fixed(4),
        14 => Rule::List(4),
        18 | 21 => Rule::List(2),
        19 => Rule::Fixed(8),
        _ => Rule::Unknown,
    }
}

#[tactic(auto, unfolding(crate::specs::Rule::rule_of_misauth))]
fn rule_misauth(kind: u8) -> Rule
    ensures { result ≡ rule_of_misauth kind }
{
    match kind {
        1 | 33 | 200..=203 => Rule::Any,
        4 => Rule::Fixed(6),
        95 => Rule::Fixed(18),
        204 => Rule::Fixed(14),
        205 => Rule::Fixed(4),
        206 => Rule::List(4),
        _ => Rule::Unknown,
    }
}

#[tactic(auto, unfolding(crate::specs::Rule::rule_of))]
pub fn rule_of(f: Family, kind: u8) -> Rule
    ensures { result ≡ rule_of f kind }
{
    match f {
        Family::Misp => rule_misp(kind),
        Family::Misauth => rule_misauth(kind),
    }
}

// Whether an object with this value counts as one of its type; another is passed over.
#[tactic(auto, unfolding(crate::specs::Rule::counts_for))]
pub fn counts(r: Rule, value: &[u8]) -> bool
    ensures { result ≡ counts_for r value.now }
{
    match r {
        Rule::Fixed(n) => 2 + value.len() == n,
        Rule::Any => true,
        Rule::List(unit) => unit != 0 && value.len() % unit == 0,
        Rule::Flag => value.len() == 1 && value[0] <= 1,
        Rule::Unknown => false,
    }
}
