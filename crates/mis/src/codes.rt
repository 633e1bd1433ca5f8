// MD5 (RFC 1321) and HMAC-MD5 (RFC 2104).
ghost use Rattle.std.specs.Prelude.{◌≡◌};
ghost use Rattle.md5_digest.specs.Md5.{md5_of};
ghost use Rattle.hmac.specs.Hmac.{hmac_of};

// MD5 of the message.
#[unsafe(no_mangle)]
pub extern "C" fn mis_md5(message: &[u8], digest: &mut [u8; 16])
    ensures { digest.new ≡ md5_of message.now }
{
    handed::digests::digest(message, digest)
}

// HMAC-MD5 of the message under the key.
#[unsafe(no_mangle)]
pub extern "C" fn mis_hmac_md5(key: &[u8], message: &[u8], code: &mut [u8; 16])
    ensures { code.new ≡ hmac_of key.now message.now }
{
    handed::digests::keyed(key, message, code)
}
