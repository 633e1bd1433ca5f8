// A message's objects as an iterator: each is read from the tail that starts where the last ended.
ghost use Rattle.std.specs.Prelude.{ℕ, ◌≡◌, ◌+◌, ◌^◌, ◌<◌, length};

use crate::family::Family;
use crate::rule::{Rule, rule_of};
use crate::walk::{Piece, is_mine, piece_at};
use octets::part::Part;

// An object that is no padding: its type, and its value with the offset in the message at which that stands.
#[derive(Clone, Copy, Debug, PartialEq, Eq, Hash)]
pub struct Item<'a> {
    pub kind: u8,
    pub at: usize,
    pub value: &'a [u8],
}

impl<'a> Item<'a> {
    // Where the value stands.
    pub fn part(self) -> Part
        ensures at { result.at ≡ self.entry.at }
        ensures len { result.len ≡ length self.entry.value.now }
    {
        Part {
            at: self.at,
            len: self.value.len(),
        }
    }
}

// The objects that are left, up to the end or to one that is broken; `rest` starts at the offset `at`.
#[derive(Clone, Copy)]
pub struct Objects<'a> {
    pub rest: &'a [u8],
    pub at: usize,
    pub padding: bool,
    // so that an offset is a number that the code can hold
    pub ghost fits: { at + length rest.now < 2 ^ 64 },
}

impl<'a> Objects<'a> {
    ghost use Rattle.object.specs.Objects.{walk_left};
    ghost use Rattle.object.specs.Walk.{walk_of};

    // Those of a message; `body` is what follows the header.
    #[tactic(auto, using(crate::proofs::ObjectsLaws::walk_of_law))]
    pub fn of(body: &'a [u8], f: Family) -> Objects<'a>
        ensures { walk_left result ≡ walk_of f body.now }
    {
        Objects {
            rest: body,
            at: f.header(),
            padding: f.padded(),
        }
    }
}

impl<'a> Iterator for Objects<'a> {
    ghost use Rattle.std.specs.Iterator.{item_count};
    ghost use Rattle.object.specs.Objects.{GivesObject, objects_left};

    type Item = Item<'a>;

    ghost next_gives = { GivesObject };

    ghost remaining = { item_count objects_left };

    #[tactic(auto, using(crate::proofs::ObjectsLaws::none_left, crate::proofs::ObjectsLaws::one_there, crate::proofs::ObjectsLaws::all_there, crate::proofs::ObjectsLaws::skips, crate::proofs::ObjectsLaws::gives, crate::proofs::ObjectsLaws::still_fits, crate::proofs::ObjectsLaws::leaves_less))]
    fn next(&mut self) -> Option<Item<'a>> {
        loop {
            match piece_at(self.rest, self.padding) {
                Piece::End | Piece::Broken => {
                    return None;
                }
                Piece::Padding => {
                    self.rest = &self.rest[1..];
                    self.at += 1;
                }
                Piece::Object { kind, len } => {
                    let object = Item {
                        kind,
                        at: self.at + 2,
                        value: &self.rest[2..len],
                    };
                    self.rest = &self.rest[len..];
                    self.at += len;
                    return Some(object);
                }
            }
        }
    }
}

// Those of one type that count.
#[derive(Clone, Copy)]
pub struct Mine<'a> {
    pub objects: Objects<'a>,
    pub rule: Rule,
    pub wanted: u8,
}

impl<'a> Mine<'a> {
    ghost use Rattle.object.specs.Objects.{mine_left};
    ghost use Rattle.object.specs.Walk.{walk_of, all_of};

    // Those of a message; `body` is what follows the header.
    pub fn of(body: &'a [u8], f: Family, wanted: u8) -> Mine<'a>
        ensures { mine_left result ≡ all_of f wanted (walk_of f body.now).items }
    {
        Mine {
            objects: Objects::of(body, f),
            rule: rule_of(f, wanted),
            wanted,
        }
    }
}

impl<'a> Iterator for Mine<'a> {
    ghost use Rattle.std.specs.Iterator.{YieldsFirstBy, item_count};
    ghost use Rattle.object.specs.Objects.{item_of, mine_left};

    type Item = Item<'a>;

    ghost next_gives = { YieldsFirstBy item_of mine_left };

    ghost remaining = { item_count mine_left };

    fn next(&mut self) -> Option<Item<'a>> {
        while let Some(o) = self.objects.next() {
            if is_mine(self.rule, self.wanted, o.kind, o.value) {
                return Some(o);
            }
        }
        None
    }
}
