// A message's fields as the objects that they stand for, printed as `TYPE=VALUE` with the value's bytes as on the wire.
ghost use Rattle.std.specs.Prelude.{◌≡◌, List, [], ◌∷◌, ◌++◌, ℕ, ◌≤◌};
ghost use Rattle.script.specs.Decimal.{decimal_text};
ghost use Rattle.position.specs.Position.{position_bytes};
ghost use Rattle.message.specs.Reading.{length_of, headed};
ghost use Rattle.message.specs.Writing.{object, number_object, optional_object, repeats};
ghost use Rattle.misauth.specs.Run.{repeats_in};
ghost use Rattle.told.specs.Print.{Puts, line_end};
ghost use Rattle.listed.specs.Text.{other_text, start_text, field_text, objects_text, message_text};
ghost use Rattle.listed.specs.Fields.{objects_of, all_objects, listing_text};

use object::family::Family;
use object::objects::Mine;
use octets::number::part;
use octets::part::{Part, bytes_at};
use position::Position;
use refusal::Refusal;
use told::printing::{next_decimal, put, put_decimal, put_hex};

// The most bytes that a field holds itself: a position's.
const HELD: usize = 12;

// The most fields that a kind of message has: a beacon's.
pub const MOST: usize = 11;

// The type of a field's object, with its value where the field holds it (the first bytes of an array, so many as the last part says) or with the
// part of the message where it stands; or the type of objects that repeat, all of the message in their order; or no object.
#[derive(Clone, Copy)]
pub enum Field {
    Missing,
    Own(u8, [u8; HELD], usize),
    Part(u8, Part),
    Run(u8),
}

// What is printed of a message that was read: its code, its second number and its fields.
// Stays: an array of the most fields, where a `Vec` would hold so many as there are: a heap would add to the axioms of `replay` that README.md lists.
#[derive(Clone, Copy)]
pub struct Listed {
    pub code: u8,
    pub second: u8,
    pub fields: [Field; MOST],
}

// What stands before the fields: `0 CODE S`, or `0 CODE IDENTIFIER`.
fn put_start(text: &mut [u8], at: usize, code: u8, second: u8) -> usize
    ensures { Puts (start_text code second) text.old at text.new result }
{
    let zero = put(text, at, b"0");
    let first = next_decimal(text, zero, code as u64);
    next_decimal(text, first, second as u64)
}

// One object: `TYPE=VALUE` after a space.
fn put_object(text: &mut [u8], at: usize, kind: u8, value: &[u8]) -> usize
    ensures { Puts (field_text kind value.now) text.old at text.new result }
{
    let named = next_decimal(text, at, kind as u64);
    let told = put(text, named, b"=");
    put_hex(text, told, value)
}

// Objects of a MISAUTH message that repeat, in their order.
fn put_run(text: &mut [u8], at: usize, kind: u8, m: &[u8]) -> usize
    ensures { Puts (objects_text (repeats kind (repeats_in kind (length_of m.now) m.now))) text.old at text.new result }
{
    let end = octets::number::number16(m, 2) as usize;
    let body = message::reading::body(m, Family::Misauth, end);
    let mut next = at;
    for o in Mine::of(body, Family::Misauth, kind) {
        next = put_object(text, next, kind, o.value);
    }
    next
}

// The objects of a message that a field stands for.
fn put_objects(text: &mut [u8], at: usize, m: &[u8], field: Field) -> usize
    ensures { Puts (objects_text (objects_of m.now field)) text.old at text.new result }
{
    match field {
        Field::Missing => at,
        Field::Own(kind, bytes, len) => put_object(text, at, kind, part(&bytes, 0, len)),
        Field::Part(kind, place) => put_object(text, at, kind, bytes_at(m, place)),
        Field::Run(kind) => put_run(text, at, kind, m),
    }
}

// The objects of all fields.
fn put_fields(text: &mut [u8], at: usize, m: &[u8], fields: &[Field]) -> usize
    ensures { Puts (objects_text (all_objects m.now fields.now)) text.old at text.new result }
{
    let mut next = at;
    for &field in fields {
        next = put_objects(text, next, m, field);
    }
    next
}

// A refusal number alone.
fn put_refusal(text: &mut [u8], at: usize, number: u8) -> usize
    ensures { Puts (decimal_text number ++ line_end) text.old at text.new result }
{
    let next = put_decimal(text, at, number as u64);
    put(text, next, b"\n")
}

// A message that was read.
fn put_message(text: &mut [u8], at: usize, m: &[u8], l: &Listed) -> usize
    ensures { Puts (message_text l.now.code l.now.second (all_objects m.now l.now.fields)) text.old at text.new result }
{
    let start = put_start(text, at, l.code, l.second);
    let last = put_fields(text, start, m, &l.fields);
    put(text, last, b"\n")
}

// The line of a message, read or refused.
pub(crate) fn put_listing(text: &mut [u8], at: usize, m: &[u8], l: Result<Listed, Refusal>) -> usize
    ensures { Puts (listing_text m.now l) text.old at text.new result }
{
    match &l {
        Err(why) => put_refusal(text, at, u8::from(*why)),
        Ok(l) => put_message(text, at, m, l),
    }
}

// A number of `size` bytes.
pub(crate) fn number_field(kind: u8, size: usize, n: u64) -> Field
    requires { size ≤ 8 }
    ensures { (m : List ℕ) → objects_of m result ≡ number_object kind size n ∷ [] }
{
    let mut bytes = [0u8; HELD];
    octets::put::put_number(&mut bytes, 0, size, n);
    Field::Own(kind, bytes, size)
}

// A number that may be missing.
pub(crate) fn optional_field(kind: u8, size: usize, o: Option<u64>) -> Field
    requires { size ≤ 8 }
    ensures { (m : List ℕ) → objects_of m result ≡ optional_object kind size o }
{
    match o {
        None => Field::Missing,
        Some(n) => number_field(kind, size, n),
    }
}

// A position that is there.
pub(crate) fn given_position(kind: u8, p: Position) -> Field
    ensures { (m : List ℕ) → objects_of m result ≡ object kind (position_bytes p) ∷ [] }
{
    Field::Own(kind, position::bytes(p), HELD)
}

// A message that no reader takes: 1, 2, or 3 for its code.
pub(crate) fn no_reader(m: &[u8], f: Family) -> Result<Listed, Refusal>
    ensures { listing_text m.now result ≡ other_text (headed f m.now) }
{
    message::reading::head(m, f)?;
    Err(Refusal::OtherCode)
}
