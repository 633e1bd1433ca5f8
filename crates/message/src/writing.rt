// Writing: the header and objects put into a lent buffer, and the tests of fields that are to be written. Whatever puts an object answers how many bytes it takes.
ghost use Rattle.std.specs.Prelude.{◌≡◌, ◌≤◌, ◌+◌, [], ◌∷◌, length, drop, nat_le};
ghost use Rattle.std.specs.Option.{option_map};
ghost use Rattle.octets.specs.Choice.{pick};
ghost use Rattle.octets.specs.Put.{put, put_in};
ghost use Rattle.object.specs.Family.{header_of, limit_of};
ghost use Rattle.message.specs.Laid.{laid, laid_all, Lays};
ghost use Rattle.message.specs.Writing.{head_bytes, object, number_object, optional_object, repeats, perhaps, encoded, message_of, flag_byte, is_below, is_list, is_name, Starts, Placed, Writes};

use object::family::Family;
use refusal::Refusal;

// An object that a message is written of.
#[derive(Clone, Copy)]
pub enum Object<'a> {
    // its type and its value; a value of more than 253 bytes has no object
    Bytes(u8, &'a [u8]),
    // its type, how many bytes its value has, and the number in them
    Number(u8, usize, u64),
    // none
    Missing,
    // whole objects, as they stand
    Run(&'a [u8]),
}

// An object whose value is a number, where it is given.
#[tactic(auto, using(crate::proofs::ObjectLaws::encoded_one), unfolding(crate::specs::Writing::encoded))]
pub fn optional<'a>(kind: u8, size: usize, n: Option<u64>) -> Object<'a>
    ensures { laid result ≡ encoded (optional_object kind size n) }
{
    match n {
        None => Object::Missing,
        Some(n) => Object::Number(kind, size, n),
    }
}

// An object with this value, where it is given.
#[tactic(auto, using(crate::proofs::ObjectLaws::encoded_one), unfolding(crate::specs::Writing::encoded))]
pub fn perhaps<'a>(kind: u8, value: Option<&'a [u8]>) -> Object<'a>
    ensures { laid result ≡ encoded (repeats kind (perhaps (option_map (λ v. v.now) value.entry))) }
{
    match value {
        None => Object::Missing,
        Some(value) => Object::Bytes(kind, value),
    }
}

// The object, where it is given.
pub fn given<'a>(is: bool, o: Object<'a>) -> Object<'a>
    ensures { laid result ≡ pick is (laid o.entry) [] }
{
    if is { o } else { Object::Missing }
}

// How many bytes an object takes whose value has so many.
#[inline(always)]
fn sized(n: usize) -> usize
    ensures { result ≡ pick (nat_le n 253) (2 + n) 0 }
{
    if n <= 253 { 2 + n } else { 0 }
}

// How many bytes it takes.
#[inline(always)]
fn size(o: &Object<'_>) -> usize
    ensures { result ≡ length (laid o.now) }
{
    match o {
        Object::Bytes(_, value) => sized(value.len()),
        Object::Number(_, size, _) => sized(*size),
        Object::Missing => 0,
        Object::Run(objects) => objects.len(),
    }
}

// The header: Code, the second byte (S and the reserved bits, or the Identifier), Length, and a MISAUTH message's Authenticator as zeros.
fn put_head(out: &mut [u8], f: Family, code: u8, second: u8, end: usize)
    ensures { out.new ≡ put_in out.old 0 (head_bytes f code second end) }
{
    let header = f.header();
    if header <= out.len() {
        out[0] = code;
        out[1] = second;
        octets::put::put_number(out, 2, 2, end as u64);
        octets::put::put_number(out, 4, header - 4, 0);
    }
}

// Type and Length of an object whose value has `n` bytes, where the whole object has room: whether it has.
fn start_object(out: &mut [u8], at: usize, kind: u8, n: usize) -> bool
    requires { n ≤ 253 }
    ensures { Starts out.old at kind n out.new result }
{
    if !octets::range::has_room(out.len(), at, n + 2) {
        return false;
    }
    out[at] = kind;
    out[at + 1] = (n + 2) as u8;
    true
}

// An object with this value; one of more than 253 bytes has no object.
fn put_object(out: &mut [u8], at: usize, kind: u8, value: &[u8]) -> usize
    ensures { Placed out.old at (object kind value.now ∷ []) out.new result }
{
    let n = value.len();
    if 253 < n {
        return 0;
    }
    if start_object(out, at, kind, n) {
        octets::put::put_bytes(out, at + 2, value);
    }
    n + 2
}

// An object whose value is a number of `size` bytes.
fn put_number(out: &mut [u8], at: usize, kind: u8, size: usize, n: u64) -> usize
    ensures { Placed out.old at (number_object kind size n ∷ []) out.new result }
{
    if 253 < size {
        return 0;
    }
    if start_object(out, at, kind, size) {
        octets::put::put_number(out, at + 2, size, n);
    }
    size + 2
}

// An object, put where it has room: how many bytes it takes.
#[inline(always)]
fn put(out: &mut [u8], at: usize, o: &Object<'_>) -> usize
    ensures size { result ≡ length (laid o.now) }
    ensures left { out.new ≡ put_in out.old at (laid o.now) }
{
    match o {
        Object::Bytes(kind, value) => put_object(out, at, *kind, value),
        Object::Number(kind, size, n) => put_number(out, at, *kind, *size, *n),
        Object::Missing => 0,
        Object::Run(objects) => {
            octets::put::put_bytes(out, at, objects);
            objects.len()
        }
    }
}

// Whether a message of these objects is within the limit.
#[inline(always)]
fn fit(f: Family, objects: &[Object<'_>]) -> bool
    ensures { result ≡ nat_le (header_of f + length (laid_all objects.now)) (limit_of f) }
{
    let limit = f.limit();
    let mut end = f.header();
    for o in objects {
        let n = size(o);
        if !octets::range::has_room(limit, end, n) {
            return false;
        }
        end += n;
    }
    true
}

// The object at a place of the list, where there is one, put at an offset: where it ends.
#[inline(always)]
fn put_one(out: &mut [u8], at: usize, objects: &[Object<'_>], i: usize) -> usize
    requires { at + length (laid_all (drop i objects.now)) ≤ length out.old }
    ensures { Lays objects.now i 1 out.old at out.new result }
{
    if i < objects.len() {
        at + put(out, at, &objects[i])
    } else {
        at
    }
}

// Four objects from a place on.
#[inline(always)]
fn put_four(out: &mut [u8], at: usize, objects: &[Object<'_>], i: usize) -> usize
    requires few { i ≤ 8 }
    requires room { at + length (laid_all (drop i objects.now)) ≤ length out.old }
    ensures { Lays objects.now i 4 out.old at out.new result }
{
    let at = put_one(out, at, objects, i);
    let at = put_one(out, at, objects, i + 1);
    let at = put_one(out, at, objects, i + 2);
    put_one(out, at, objects, i + 3)
}

// The objects, one after the other past where the header will stand: where they end.
// Stays: no loop over the first twelve, and inlined with what it calls and what calls it. Where the list stands in the code each object is put with its
// kind and its size known, in a third of the time.
#[inline(always)]
fn put_all(out: &mut [u8], f: Family, objects: &[Object<'_>]) -> usize
    requires { header_of f + length (laid_all objects.now) ≤ length out.old }
    ensures end { result ≡ header_of f + length (laid_all objects.now) }
    ensures left { out.new ≡ put out.old (header_of f) (laid_all objects.now) }
{
    let at = put_four(out, f.header(), objects, 0);
    let at = put_four(out, at, objects, 4);
    let mut at = put_four(out, at, objects, 8);
    for i in 12..objects.len() {
        at = put_one(out, at, objects, i);
    }
    at
}

// Writes a message of these objects, a MISAUTH message with its Authenticator zero; or refuses with 20, or with 18 where a field is not in range or
// the whole is beyond the limit.
#[inline(always)]
pub fn write(
    out: &mut [u8],
    f: Family,
    code: u8,
    second: u8,
    in_range: bool,
    objects: &[Object<'_>],
) -> Result<usize, Refusal>
    ensures { Writes f in_range (message_of f code second (laid_all objects.now)) out.old out.new result }
{
    if out.len() < f.limit() {
        return Err(Refusal::SmallOutput);
    }
    if !in_range {
        return Err(Refusal::OutOfRange);
    }
    if !fit(f, objects) {
        return Err(Refusal::OutOfRange);
    }
    let end = put_all(out, f, objects);
    put_head(out, f, code, second, end);
    Ok(end)
}

// Whether a number that may be missing fits its object's bytes: it is below `bound`.
#[tactic(auto, using(crate::proofs::LaidLaws::below_or), unfolding(crate::specs::Writing::is_below))]
pub fn below(o: Option<u64>, bound: u64) -> bool
    ensures { result ≡ is_below o bound }
{
    o.is_none_or(|n| n < bound)
}

// Whether a list of elements of `unit` bytes fits an object.
#[tactic(auto, unfolding(crate::specs::Writing::is_list))]
pub fn is_list(value: &[u8], unit: usize) -> bool
    ensures { result ≡ is_list unit value.now }
{
    unit != 0 && value.len() <= 253 && value.len() % unit == 0
}

// Whether a name fits an object and is not empty.
#[tactic(auto, unfolding(crate::specs::Writing::is_name))]
pub fn is_name(value: &[u8]) -> bool
    ensures { result ≡ is_name value.now }
{
    !value.is_empty() && value.len() <= 253
}

// The second byte of a MISP header: S in the top bit, the reserved bits 0.
pub fn flag(s: bool) -> u8
    ensures { result ≡ flag_byte s }
{
    if s { 128 } else { 0 }
}
