// HMAC-MD5 (RFC 2104): the two states that a key leads to, and the code of a message from them.
#![tactic(auto)]

ghost use Rattle.std.specs.Prelude.{◌≡◌, ◌≤◌, length};
ghost use Rattle.hmac.specs.Hmac.{key_block, keyed_by, keyed_of, hmac_from, hmac_of};

use md5_digest::State;

// The states after the inner and after the outer block of a key.
#[derive(Clone, Copy)]
pub struct Keyed {
    pub inner: State,
    pub outer: State,
}

// The key filled with zeros to a block, each byte xor p.
fn key_block(key: &[u8], p: u8) -> [u8; 64]
    requires { length key.now ≤ 64 }
    ensures { result ≡ key_block p key.now }
{
    let mut block = [p; 64];
    for i in 0..key.len() {
        block[i] = key[i] ^ p;
    }
    block
}

// The states after the two blocks of a key of at most a block.
#[tactic(auto, using(crate::proofs::KeyLaws::keyed_by_law))]
fn keyed_by(key: &[u8]) -> Keyed
    requires { length key.now ≤ 64 }
    ensures { result ≡ keyed_by key.now }
{
    let inner_block = key_block(key, 0x36);
    let outer_block = key_block(key, 0x5c);
    let inner = md5_digest::blocks(md5_digest::initial(), &inner_block);
    let outer = md5_digest::blocks(md5_digest::initial(), &outer_block);
    Keyed { inner, outer }
}

// The keyed start of any key: one of more than a block counts by its digest.
#[tactic(auto, using(crate::proofs::KeyLaws::long_key, crate::proofs::KeyLaws::short_key))]
pub fn keyed_start(key: &[u8]) -> Keyed
    ensures { result ≡ keyed_of key.now }
{
    if 64 < key.len() {
        let digest = md5_digest::md5(key);
        return keyed_by(&digest);
    }
    keyed_by(key)
}

// The code of a message from a keyed start. Not inlined: nine calls take 128 to 320 bytes of stack less for it, and a router's request 208 more.
#[tactic(auto, unfolding(crate::specs::Hmac::hmac_from))]
#[inline(never)]
pub fn hmac_from(k: Keyed, m: &[u8]) -> [u8; 16]
    ensures { result ≡ hmac_from k m.now }
{
    let digest = md5_digest::md5_from(k.inner, 64, m);
    md5_digest::md5_from(k.outer, 64, &digest)
}

// The code of a message under a key.
#[tactic(auto, using(crate::proofs::HmacLaws::keyed_start))]
pub fn hmac_md5(key: &[u8], m: &[u8]) -> [u8; 16]
    ensures { result ≡ hmac_of key.now m.now }
{
    hmac_from(keyed_start(key), m)
}
