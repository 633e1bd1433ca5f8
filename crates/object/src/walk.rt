// The walk: each object is read from the tail that starts where the last ended.
ghost use Rattle.std.specs.Prelude.{◌≡◌, ◌==◌};
ghost use Rattle.octets.specs.Choice.{both};
ghost use Rattle.object.specs.Rule.{counts_for};
ghost use Rattle.std.specs.Option.{option_map};
ghost use Rattle.object.specs.Objects.{item_of};
ghost use Rattle.object.specs.Walk.{piece_of, walk_of, found_of, one_of, all_of, nth_of};

use crate::family::Family;
use crate::objects::{Item, Mine, Objects};
use crate::rule::{Rule, counts, rule_of};
use octets::part::Part;

// What stands at the start of a tail of the message.
#[derive(Clone, Copy, Debug, PartialEq, Eq, Hash)]
pub enum Piece {
    End,
    Padding,
    Object { kind: u8, len: usize },
    Broken,
}

// What stands at the start of a tail; type 0 is padding where the family has it.
#[tactic(auto, unfolding(crate::specs::Walk::piece_of))]
pub fn piece_at(rest: &[u8], padding: bool) -> Piece
    ensures { result ≡ piece_of padding rest.now }
{
    match rest {
        [] => Piece::End,
        [0, ..] if padding => Piece::Padding,
        [kind, len, ..] if 2 <= *len && *len as usize <= rest.len() => Piece::Object {
            kind: *kind,
            len: *len as usize,
        },
        _ => Piece::Broken,
    }
}

// Whether every object of a message is whole; `body` is what follows the header.
pub fn walk(body: &[u8], f: Family) -> Result<(), usize>
    ensures { result ≡ (walk_of f body.now).ends }
{
    let mut objects = Objects::of(body, f);
    while let Some(_) = objects.next() {}
    if objects.rest.is_empty() {
        Ok(())
    } else {
        Err(objects.at)
    }
}

// Whether an object counts as one of the type that is looked for, whose rule is `rule`.
#[tactic(auto, unfolding(octets::specs::Choice::both))]
pub fn is_mine(rule: Rule, wanted: u8, kind: u8, value: &[u8]) -> bool
    ensures { result ≡ both (kind == wanted) (counts_for rule value.now) }
{
    kind == wanted && counts(rule, value)
}

// The object of a type that counts; `body` is what follows the header.
// Stays: a loop, and no `next` or `last` of `Mine`, which keep more in memory for each object: a reader of MISAUTH took 1.3 to 2.2 times as long.
pub fn find(body: &[u8], f: Family, wanted: u8) -> Option<Part>
    ensures { result ≡ found_of (one_of f wanted (walk_of f body.now).items) }
{
    let rule = rule_of(f, wanted);
    let mut objects = Objects::of(body, f);
    let mut found = None;
    while let Some(o) = objects.next() {
        if is_mine(rule, wanted, o.kind, o.value) {
            if !f.last_counts() {
                return Some(o.part());
            }
            found = Some(o.part());
        }
    }
    found
}

// Of the objects of a type, in their order, the one that `n` others precede.
pub fn nth(body: &[u8], f: Family, wanted: u8, n: usize) -> Option<Part>
    ensures { result ≡ found_of (nth_of n (all_of f wanted (walk_of f body.now).items)) }
{
    Mine::of(body, f, wanted).nth(n).map(|o| o.part())
}
