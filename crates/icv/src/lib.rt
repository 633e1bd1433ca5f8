// Check values and keys (the paper, 'Check value and key').
#![tactic(auto)]

ghost use Rattle.std.specs.Prelude.{◌≡◌};
ghost use Rattle.icv.specs.Icv.{authentication_of, check_value, session_key, masked, xored};

use object::family::Misp;

// The authentication data of a message whose check value stands at an offset: MD5 of the message with these 16 bytes zero, the
// sender's address and the receiver's.
// Stays: two addresses, each an argument: `authentication_of` takes two, as the paper does, and `Hop { sender, receiver }` at each call is longer than both names.
// Stays: an array with the count of its bytes beside it: no heap, and the third of the forms in DECISIONS, 41.
pub fn authentication(m: &[u8], at: usize, sender: [u8; 6], receiver: [u8; 6]) -> [u8; 16]
    ensures { result ≡ authentication_of at sender receiver m.now }
{
    let mut area = [0u8; 1512];
    let zeros = [0u8; 16];
    let message = octets::number::part(m, 0, Misp::LIMIT);
    let n = message.len();
    octets::put::put_bytes(&mut area, 0, message);
    octets::put::put_bytes(&mut area[..n], at, &zeros);
    octets::put::put_bytes(&mut area, n, &sender);
    octets::put::put_bytes(&mut area, n + 6, &receiver);
    md5_digest::md5(&area[..n + 12])
}

// The check value: HMAC-MD5 of the authentication data.
#[tactic(auto, unfolding(crate::specs::Icv::check_value))]
pub fn check_value(key: &[u8], authentication: [u8; 16]) -> [u8; 16]
    ensures { result ≡ check_value key.now authentication }
{
    hmac::hmac_md5(key, &authentication)
}

// The session key: HMAC-MD5 of the seed under the password.
#[tactic(auto, unfolding(crate::specs::Icv::session_key))]
pub fn session_key(password: &[u8], seed: [u8; 16]) -> [u8; 16]
    ensures { result ≡ session_key password.now seed }
{
    hmac::hmac_md5(password, &seed)
}

// XOR, byte by byte.
fn xor(a: [u8; 16], b: [u8; 16]) -> [u8; 16]
    ensures { result ≡ xored a b }
{
    let mut t = [0u8; 16];
    for i in 0..16 {
        t[i] = a[i] ^ b[i];
    }
    t
}

// Puts the mask of object 203 on a session key, or takes it off.
#[tactic(auto, unfolding(crate::specs::Icv::masked))]
pub fn mask(secret: &[u8], check: [u8; 16], key: [u8; 16]) -> [u8; 16]
    ensures { result ≡ masked secret.now check key }
{
    xor(key, hmac::hmac_md5(secret, &check))
}
