// Digests and codes of the RFCs' vectors and of a pattern, one to a line: a label, a space, 32 hexadecimal digits.
#![tactic(auto)]

ghost use Rattle.std.specs.Prelude.{◌≤◌, ◌<◌};

use std::{fmt, io};

// A digest or a code, in hexadecimal.
#[derive(Clone, Copy)]
struct Hex([u8; 16]);

impl fmt::Display for Hex {
    fn fmt<W: fmt::Write>(&self, f: &mut fmt::Formatter<W>) -> fmt::Result {
        for byte in &self.0 {
            write!(f, "{byte:02x}")?;
        }
        Ok(())
    }
}

// MD5 of a message.
fn md5_line(rt: &impl Print, label: &str, message: &[u8]) -> io::Result<()> {
    println!(rt; "{label} {}", Hex(md5_digest::md5(message)))
}

// HMAC of a message under a key.
fn hmac_line(rt: &impl Print, label: &str, key: &[u8], message: &[u8]) -> io::Result<()> {
    println!(rt; "{label} {}", Hex(hmac::hmac_md5(key, message)))
}

// RFC 1321, appendix A.5.
fn rfc1321(rt: &impl Print) -> io::Result<()> {
    md5_line(rt, "rfc1321-1", b"")?;
    md5_line(rt, "rfc1321-2", b"a")?;
    md5_line(rt, "rfc1321-3", b"abc")?;
    md5_line(rt, "rfc1321-4", b"message digest")?;
    md5_line(rt, "rfc1321-5", b"abcdefghijklmnopqrstuvwxyz")?;
    md5_line(
        rt,
        "rfc1321-6",
        b"ABCDEFGHIJKLMNOPQRSTUVWXYZabcdefghijklmnopqrstuvwxyz0123456789",
    )?;
    md5_line(
        rt,
        "rfc1321-7",
        b"12345678901234567890123456789012345678901234567890123456789012345678901234567890",
    )
}

// RFC 2104, appendix.
fn rfc2104(rt: &impl Print) -> io::Result<()> {
    let first = [0x0bu8; 16];
    let third = [0xaau8; 16];
    let message = [0xddu8; 50];
    hmac_line(rt, "rfc2104-1", &first, b"Hi There")?;
    hmac_line(rt, "rfc2104-2", b"Jefe", b"what do ya want for nothing?")?;
    hmac_line(rt, "rfc2104-3", &third, &message)
}

// RFC 2202, 2: test cases 1 to 4.
fn rfc2202(rt: &impl Print) -> io::Result<()> {
    let first = [0x0bu8; 16];
    let third = [0xaau8; 16];
    let third_message = [0xddu8; 50];
    let fourth = [
        1u8, 2, 3, 4, 5, 6, 7, 8, 9, 10, 11, 12, 13, 14, 15, 16, 17, 18, 19, 20, 21, 22, 23, 24, 25,
    ];
    let fourth_message = [0xcdu8; 50];
    hmac_line(rt, "rfc2202-1", &first, b"Hi There")?;
    hmac_line(rt, "rfc2202-2", b"Jefe", b"what do ya want for nothing?")?;
    hmac_line(rt, "rfc2202-3", &third, &third_message)?;
    hmac_line(rt, "rfc2202-4", &fourth, &fourth_message)
}

// RFC 2202, 2: test cases 5 to 7.
fn rfc2202_more(rt: &impl Print) -> io::Result<()> {
    let fifth = [0x0cu8; 16];
    let long = [0xaau8; 80];
    hmac_line(rt, "rfc2202-5", &fifth, b"Test With Truncation")?;
    hmac_line(
        rt,
        "rfc2202-6",
        &long,
        b"Test Using Larger Than Block-Size Key - Hash Key First",
    )?;
    hmac_line(
        rt,
        "rfc2202-7",
        &long,
        b"Test Using Larger Than Block-Size Key and Larger Than One Block-Size Data",
    )
}

// The byte of the pattern at i.
fn pattern_byte(i: usize) -> u8
    requires { i < 300 }
{
    ((7 * i + 3) % 256) as u8
}

// The pattern, whole.
fn pattern() -> [u8; 300] {
    let mut p = [0u8; 300];
    for i in 0..p.len() {
        p[i] = pattern_byte(i);
    }
    p
}

// MD5 of the pattern's first 0 to 300 bytes.
fn lengths(rt: &impl Print, p: &[u8; 300]) -> io::Result<()> {
    for n in 0..=p.len() {
        println!(rt; "md5-{n} {}", Hex(md5_digest::md5(&p[..n])))?;
    }
    Ok(())
}

// HMAC of seven lengths of the pattern under its first k bytes, from the keyed start.
fn under_key(rt: &impl Print, p: &[u8; 300], k: usize) -> io::Result<()>
    requires { k ≤ 300 }
{
    for n in [0, 1, 55, 56, 64, 119, 300] {
        let code = hmac::hmac_from(hmac::keyed_start(&p[..k]), &p[..n]);
        println!(rt; "hmac-{k}-{n} {}", Hex(code))?;
    }
    Ok(())
}

fn main(rt: HostRuntime) -> io::Result<()> {
    rfc1321(&rt)?;
    rfc2104(&rt)?;
    rfc2202(&rt)?;
    rfc2202_more(&rt)?;
    let p = pattern();
    lengths(&rt, &p)?;
    for k in [0, 1, 63, 64, 65, 253] {
        under_key(&rt, &p, k)?;
    }
    Ok(())
}
