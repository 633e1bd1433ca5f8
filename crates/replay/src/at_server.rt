// The line on the server.
use asked::arguments::fixed_at;
use hall::state::{Hall, Stepped};

// `login IPV4 MESSAGE`, where its words can be read
pub fn login(hall: Hall, line: &[u8], books: &[u8], m: &[u8], out: &mut [u8]) -> Option<Stepped> {
    let ipv4 = fixed_at(line, 1)?;
    Some(hall::at_server::login(hall, books, ipv4, m, out))
}
