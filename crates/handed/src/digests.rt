// MD5 (RFC 1321) and HMAC-MD5 (RFC 2104) into a lent array.
ghost use Rattle.std.specs.Prelude.{◌≡◌};
ghost use Rattle.md5_digest.specs.Md5.{md5_of};
ghost use Rattle.hmac.specs.Hmac.{hmac_of};

// MD5 of the message.
pub fn digest(message: &[u8], out: &mut [u8; 16])
    ensures { out.new ≡ md5_of message.now }
{
    *out = md5_digest::md5(message);
}

// HMAC-MD5 of the message under the key.
pub fn keyed(key: &[u8], message: &[u8], out: &mut [u8; 16])
    ensures { out.new ≡ hmac_of key.now message.now }
{
    *out = hmac::hmac_md5(key, message);
}
