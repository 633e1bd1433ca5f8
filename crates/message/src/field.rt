// The fields of a message that ends at `end`, by the object of a type that counts: its value's bytes, the part of the message that they are, and
// the numbers in them. And S, the flag of the header.
ghost use Rattle.std.specs.Prelude.{◌≡◌};
ghost use Rattle.std.specs.Option.{option_map};
ghost use Rattle.octets.specs.Put.{fitted};
ghost use Rattle.octets.specs.Part.{bytes_at};
ghost use Rattle.object.specs.Walk.{found_of};
ghost use Rattle.message.specs.Reading.{value_of};
ghost use Rattle.message.specs.Field.{object_in, value_in, part_in, optional_in, number_in, flag_in};

use object::family::Family;
use octets::part::Part;

// A message whose objects stand before `end`.
#[derive(Clone, Copy)]
pub struct Message<'a> {
    pub bytes: &'a [u8],
    pub family: Family,
    pub end: usize,
}

impl<'a> Message<'a> {
    // Where the value of the object stands.
    #[tactic(auto, unfolding(crate::specs::Field::object_in))]
    pub fn place(&self, kind: u8) -> Option<Part>
        ensures { result ≡ found_of (object_in self.now.family kind self.now.end self.now.bytes.now) }
    {
        object::walk::find(
            crate::reading::body(self.bytes, self.family, self.end),
            self.family,
            kind,
        )
    }

    // The same; an empty part where there is no such object.
    #[tactic(auto, using(crate::proofs::FieldLaws::found_part), unfolding(crate::specs::Field::part_in))]
    pub fn part(&self, kind: u8) -> Part
        ensures { result ≡ part_in self.now.family kind self.now.end self.now.bytes.now }
    {
        self.place(kind).unwrap_or(Part { at: 0, len: 0 })
    }

    // The bytes of the value, where there is one.
    pub fn get(&self, kind: u8) -> Option<&'a [u8]>
        ensures { option_map (λ v. v.now) result ≡ value_of (object_in self.now.family kind self.now.end self.now.bytes.now) }
    {
        self.place(kind)
            .map(|p| octets::part::bytes_at(self.bytes, p))
    }

    // The same; none where there is no such object.
    #[tactic(auto, using(crate::proofs::PartLaws::at_part))]
    pub fn value(&self, kind: u8) -> &'a [u8]
        ensures { result.now ≡ value_in self.now.family kind self.now.end self.now.bytes.now }
    {
        octets::part::bytes_at(self.bytes, self.part(kind))
    }

    // The number in the value; of more than eight bytes the first eight count.
    #[tactic(auto, using(crate::proofs::FieldLaws::optional_map), unfolding(crate::specs::Field::optional_in))]
    pub fn optional(&self, kind: u8) -> Option<u64>
        ensures { result ≡ optional_in self.now.family kind self.now.end self.now.bytes.now }
    {
        self.get(kind).map(octets::number::number)
    }

    // The number in the first eight bytes of the value, and in the first two.
    pub fn number64(&self, kind: u8) -> u64
        ensures { result ≡ number_in self.now.family kind 8 self.now.end self.now.bytes.now }
    {
        octets::number::number64(self.value(kind), 0)
    }

    pub fn number16(&self, kind: u8) -> u16
        ensures { result ≡ number_in self.now.family kind 2 self.now.end self.now.bytes.now }
    {
        octets::number::number16(self.value(kind), 0)
    }
}

// The bytes of a field that refusal 6 holds to 16.
#[tactic(auto, unfolding(octets::specs::Part::bytes_at))]
pub fn sixteen_at(m: &[u8], p: Part) -> [u8; 16]
    ensures { result ≡ fitted 16 (bytes_at m.now p) }
{
    octets::put::fitted::<16>(octets::part::bytes_at(m, p))
}

// S, the top bit of byte 1.
pub fn flag_of(m: &[u8]) -> bool
    ensures { result ≡ flag_in m.now }
{
    128 <= octets::number::byte_at(m, 1)
}
