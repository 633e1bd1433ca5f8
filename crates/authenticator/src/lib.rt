// The Authenticator of a MISAUTH message (the paper, 'MISAUTH messages'; document 003, 3.1): made, put in its place, and tested.
#![tactic(auto)]

ghost use Rattle.std.specs.Prelude.{◌≡◌, ◌++◌, take, drop};
ghost use Rattle.octets.specs.Put.{fitted, zeroed};
ghost use Rattle.authenticator.specs.Authenticator.{authenticator_of, sealed, is_authentic};

// Zeroes the field where a message has one.
#[tactic(auto, unfolding(octets::specs::Put::zeroed, octets::specs::Numbers::bytes_of))]
fn zero_field(m: &mut [u8])
    ensures { m.new ≡ zeroed 4 m.old }
{
    octets::put::put_number(m, 4, 16, 0);
}

// The first 64 bytes of a message with the field zero, and zeros where there are fewer.
#[tactic(auto, using(crate::proofs::BlockLaws::block_is))]
fn first_block(m: &[u8]) -> [u8; 64]
    ensures { result ≡ fitted 64 (zeroed 4 (take 64 m.now)) }
{
    let mut block = octets::put::fitted::<64>(m);
    zero_field(&mut block[..m.len().min(64)]);
    block
}

// The Authenticator of a message. The field stands in the first block, so only that is copied, and the hash goes on over the rest.
pub fn authenticator(secret: &[u8], m: &[u8]) -> [u8; 16]
    ensures { result ≡ authenticator_of secret.now m.now }
{
    let keyed = hmac::keyed_start(secret);
    let block = first_block(m);
    let n = m.len();
    if n < 64 {
        return hmac::hmac_from(keyed, &block[..n]);
    }
    let inner = md5_digest::blocks(keyed.inner, &block);
    let digest = md5_digest::md5_from(inner, 128, &m[64..]);
    md5_digest::md5_from(keyed.outer, 64, &digest)
}

// Puts the Authenticator into a message that fills its buffer.
#[tactic(auto, using(crate::proofs::AuthenticatorLaws::sealed_is))]
fn seal_whole(m: &mut [u8], secret: &[u8])
    ensures { m.new ≡ sealed secret.now m.old }
{
    zero_field(m);
    let code = hmac::hmac_md5(secret, m);
    octets::put::put_bytes(m, 4, &code);
}

// Puts the Authenticator into the message that the first `n` bytes are; what stands past them stays.
pub fn seal(out: &mut [u8], n: usize, secret: &[u8])
    ensures { out.new ≡ sealed secret.now (take n out.old) ++ drop n out.old }
{
    let end = n.min(out.len());
    seal_whole(&mut out[..end], secret);
}

// Whether the Authenticator that stands in a message is the right one.
#[tactic(auto, unfolding(crate::specs::Authenticator::is_authentic))]
pub fn is_authentic(secret: &[u8], m: &[u8]) -> bool
    ensures { result ≡ is_authentic secret.now m.now }
{
    let code = authenticator(secret, m);
    octets::same::same(octets::number::part(m, 4, 16), &code)
}
