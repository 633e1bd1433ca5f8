// MD5 (RFC 1321), from any state of its registers and any count of bytes before.
#![tactic(auto)]

ghost use Rattle.std.specs.Prelude.{◌≡◌, ◌+◌, ◌/◌, ◌<◌, ◌≤◌, length, take};
ghost use Rattle.md5_digest.specs.Md5.{◌⋘◌, auxiliary_of, operation_of, round_of, block_of, word_at, words_at, blocks_of, bit_count, digest_of, start, md5_from, md5_of};
ghost use Rattle.md5_digest.specs.Parts.{place_of, shifts_of, sines_of, operations_of, row_of, PaddedLength, tail_of};

// The registers A, B, C and D.
#[derive(Clone, Copy, Debug, PartialEq, Eq)]
pub struct State {
    pub a: u32,
    pub b: u32,
    pub c: u32,
    pub d: u32,
}

// The auxiliary function of a round.
#[derive(Clone, Copy)]
enum Auxiliary {
    F,
    G,
    H,
    I,
}

impl Auxiliary {
    // F, G, H or I of three words.
    #[tactic(auto, unfolding(crate::specs::Md5::auxiliary_of))]
    fn of(self, x: u32, y: u32, z: u32) -> u32
        ensures { result ≡ auxiliary_of self x y z }
    {
        match self {
            Auxiliary::F => (x & y) | (!x & z),
            Auxiliary::G => (x & z) | (y & !z),
            Auxiliary::H => x ^ y ^ z,
            Auxiliary::I => y ^ (x | !z),
        }
    }

    // The place in the block of the word of the operation at i of a round.
    #[tactic(auto, unfolding(crate::specs::Parts::place_of))]
    fn place(self, i: usize) -> usize
        requires { i < 16 }
        ensures { (result ≡ place_of self i) × (result < 16) }
    {
        match self {
            Auxiliary::F => i,
            Auxiliary::G => (5 * i + 1) % 16,
            Auxiliary::H => (3 * i + 5) % 16,
            Auxiliary::I => 7 * i % 16,
        }
    }

    // The shifts of a round, which each row of four operations repeats.
    #[tactic(auto, unfolding(crate::specs::Parts::shifts_of))]
    fn shifts(self) -> [u32; 4]
        ensures { result ≡ shifts_of self }
    {
        match self {
            Auxiliary::F => [7, 12, 17, 22],
            Auxiliary::G => [5, 9, 14, 20],
            Auxiliary::H => [4, 11, 16, 23],
            Auxiliary::I => [6, 10, 15, 21],
        }
    }

    // The constants of a round, in order.
    #[tactic(auto, unfolding(crate::specs::Parts::sines_of))]
    fn sines(self) -> [u32; 16]
        ensures { result ≡ sines_of self }
    {
        match self {
            Auxiliary::F => [
                0xd76aa478, 0xe8c7b756, 0x242070db, 0xc1bdceee, 0xf57c0faf, 0x4787c62a, 0xa8304613,
                0xfd469501, 0x698098d8, 0x8b44f7af, 0xffff5bb1, 0x895cd7be, 0x6b901122, 0xfd987193,
                0xa679438e, 0x49b40821,
            ],
            Auxiliary::G => [
                0xf61e2562, 0xc040b340, 0x265e5a51, 0xe9b6c7aa, 0xd62f105d, 0x02441453, 0xd8a1e681,
                0xe7d3fbc8, 0x21e1cde6, 0xc33707d6, 0xf4d50d87, 0x455a14ed, 0xa9e3e905, 0xfcefa3f8,
                0x676f02d9, 0x8d2a4c8a,
            ],
            Auxiliary::H => [
                0xfffa3942, 0x8771f681, 0x6d9d6122, 0xfde5380c, 0xa4beea44, 0x4bdecfa9, 0xf6bb4b60,
                0xbebfbc70, 0x289b7ec6, 0xeaa127fa, 0xd4ef3085, 0x04881d05, 0xd9d4d039, 0xe6db99e5,
                0x1fa27cf8, 0xc4ac5665,
            ],
            Auxiliary::I => [
                0xf4292244, 0x432aff97, 0xab9423a7, 0xfc93a039, 0x655b59c3, 0x8f0ccc92, 0xffeff47d,
                0x85845dd1, 0x6fa87e4f, 0xfe2ce6e0, 0xa3014314, 0x4e0811a1, 0xf7537e82, 0xbd3af235,
                0x2ad7d2bb, 0xeb86d391,
            ],
        }
    }
}

// The word x rotated left by s bits.
#[tactic(auto, using(crate::proofs::RotateLaws::rotated))]
fn rotate(x: u32, s: u32) -> u32
    ensures { result ≡ (x ⋘ s) }
{
    x.rotate_left(s)
}

// What an operation puts in the first of four registers.
#[tactic(auto, unfolding(crate::specs::Md5::operation_of))]
fn operation(f: Auxiliary, a: u32, b: u32, c: u32, d: u32, x: u32, s: u32, t: u32) -> u32
    ensures { result ≡ operation_of f a b c d x s t }
{
    let sum = a
        .wrapping_add(f.of(b, c, d))
        .wrapping_add(x)
        .wrapping_add(t);
    b.wrapping_add(rotate(sum, s))
}

// Four operations of a round from the one at i on, [ABCD ..] [DABC ..] [CDAB ..] [BCDA ..].
#[tactic(auto, using(crate::proofs::RowLaws::row_law))]
fn row(f: Auxiliary, x: &[u32; 16], i: usize, r: State) -> State
    requires { i + 4 ≤ 16 }
    ensures { result ≡ row_of f x.now i r }
{
    let s = f.shifts();
    let t = f.sines();
    let a = operation(f, r.a, r.b, r.c, r.d, x[f.place(i)], s[0], t[i]);
    let d = operation(f, r.d, a, r.b, r.c, x[f.place(i + 1)], s[1], t[i + 1]);
    let c = operation(f, r.c, d, a, r.b, x[f.place(i + 2)], s[2], t[i + 2]);
    let b = operation(f, r.b, c, d, a, x[f.place(i + 3)], s[3], t[i + 3]);
    State { a, b, c, d }
}

// A round: sixteen operations, as four rows of four.
#[tactic(auto, using(crate::proofs::RowLaws::round_law))]
fn round(f: Auxiliary, x: &[u32; 16], r: State) -> State
    ensures { result ≡ round_of f (operations_of f) x.now r }
{
    let after_four = row(f, x, 0, r);
    let after_eight = row(f, x, 4, after_four);
    let after_twelve = row(f, x, 8, after_eight);
    row(f, x, 12, after_twelve)
}

// One block: the four rounds, and each register increased by what it was.
#[tactic(auto, unfolding(crate::specs::Md5::block_of, crate::specs::Md5::rounds_of, crate::specs::Parts::operations_of))]
fn block(r: State, x: &[u32; 16]) -> State
    ensures { result ≡ block_of x.now r }
{
    let after_f = round(Auxiliary::F, x, r);
    let after_g = round(Auxiliary::G, x, after_f);
    let after_h = round(Auxiliary::H, x, after_g);
    let after_i = round(Auxiliary::I, x, after_h);
    State {
        a: after_i.a.wrapping_add(r.a),
        b: after_i.b.wrapping_add(r.b),
        c: after_i.c.wrapping_add(r.c),
        d: after_i.d.wrapping_add(r.d),
    }
}

// The word whose four bytes start at `at`, the low-order byte first.
#[tactic(auto, unfolding(crate::specs::Md5::word_at))]
fn word(s: &[u8], at: usize) -> u32
    requires { at + 4 ≤ length s.now }
    ensures { result ≡ word_at s.now at }
{
    u32::from_le_bytes([s[at], s[at + 1], s[at + 2], s[at + 3]])
}

// The 16 words of a block: the copy that the rounds read.
fn words(block: &[u8]) -> [u32; 16]
    requires { 64 ≤ length block.now }
    ensures { result ≡ words_at block.now 0 16 }
{
    let mut x = [0u32; 16];
    for i in 0..16 {
        x[i] = word(block, 4 * i);
    }
    x
}

// The state after the whole blocks of s.
// Stays: a count in place of `chunks_exact(64)`, with which bench/codes gives 1.12 of C's time for 1.11.
pub fn blocks(r: State, s: &[u8]) -> State
    ensures { result ≡ blocks_of (length s.now / 64) s.now r }
{
    let mut q = r;
    for i in 0..s.len() / 64 {
        q = block(q, &words(&s[64 * i..64 * i + 64]));
    }
    q
}

// How many bytes the rest of a message takes with its padding: one block or two.
fn padded_length(rest: usize) -> usize
    requires { rest < 64 }
    ensures { PaddedLength rest result }
{
    if rest < 56 { 64 } else { 128 }
}

// The rest of a message with its padding, in the first n bytes.
// Stays: an array with the count of its bytes beside it: no heap, and there are one or two blocks.
fn tail(rest: &[u8], n: usize, bits: u64) -> [u8; 128]
    requires { (length rest.now + 9 ≤ n) × (n ≤ 128) }
    ensures { take n result ≡ tail_of rest.now n bits }
{
    let mut t = [0u8; 128];
    t[..rest.len()].copy_from_slice(rest);
    t[rest.len()] = 128;
    t[n - 8..n].copy_from_slice(&bits.to_le_bytes());
    t
}

// The count of bits of `done` bytes and `more`, modulo 2^64.
fn bit_count(done: u64, more: u64) -> u64
    ensures { result ≡ bit_count (done + more) }
{
    done.wrapping_add(more) << 3
}

// The registers as bytes, each from its low-order byte.
fn digest(r: State) -> [u8; 16]
    ensures { result ≡ digest_of r }
{
    let mut t = [0u8; 16];
    t[..4].copy_from_slice(&r.a.to_le_bytes());
    t[4..8].copy_from_slice(&r.b.to_le_bytes());
    t[8..12].copy_from_slice(&r.c.to_le_bytes());
    t[12..].copy_from_slice(&r.d.to_le_bytes());
    t
}

// The digest of a message from the state r that its first `done` bytes led to, and the bytes s after them.
pub fn md5_from(r: State, done: u64, s: &[u8]) -> [u8; 16]
    ensures { result ≡ md5_from r done s.now }
{
    let whole = s.len() / 64 * 64;
    let rest = &s[whole..];
    let n = padded_length(rest.len());
    let t = tail(rest, n, bit_count(done, s.len() as u64));
    digest(blocks(blocks(r, s), &t[..n]))
}

// The registers before the first block.
#[tactic(auto, unfolding(crate::specs::Md5::start))]
pub fn initial() -> State
    ensures { result ≡ start }
{
    State {
        a: 0x67452301,
        b: 0xefcdab89,
        c: 0x98badcfe,
        d: 0x10325476,
    }
}

// The digest of a message.
#[tactic(auto, unfolding(crate::specs::Md5::md5_of))]
pub fn md5(s: &[u8]) -> [u8; 16]
    ensures { result ≡ md5_of s.now }
{
    md5_from(initial(), 0, s)
}
