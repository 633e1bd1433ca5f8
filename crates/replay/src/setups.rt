// The lines that set up a router or a node, lend the books and set the room of output buffers: their arguments, and the setup. Each
// answers nothing where a word cannot be read.
use crate::line::BYTES;
use crate::strings::two_at;
use asked::arguments::{fixed_at, number_at};
use hall::state::{Hall, Stepped};
use octets::number::part;
use octets::put::put_bytes;

// `router W U L NETWORK ADDRESS IPV4 SECRET POSITION INTERVAL GROUPS`. The numbers' ranges are the setup's to judge.
pub fn router(hall: Hall, line: &[u8]) -> Option<Stepped> {
    let window = number_at(line, 1)?;
    let unit = number_at(line, 2)?;
    let lifetime = number_at(line, 3)?;
    let network = number_at(line, 4)?;
    let position: [u8; 12] = fixed_at(line, 8)?;
    let mut scratch = [0u8; BYTES];
    let (secret, groups) = two_at(line, 7, 10, &mut scratch)?;
    // a group has four bytes on the wire
    if groups % 4 != 0 {
        return None;
    }
    let made = places::state::set_up(
        window,
        unit,
        lifetime,
        network,
        fixed_at(line, 5)?,
        fixed_at(line, 6)?,
        part(&scratch, 0, secret),
        position::read(&position),
        number_at(line, 9)?,
        part(&scratch, secret, groups),
    );
    Some(hall::setups::install(hall, made))
}

// `node I U P PASSWORD ACCOUNT TYPE NETWORK ADDRESS ROUTER`, likewise.
pub fn node(hall: Hall, line: &[u8]) -> Option<Stepped> {
    let i = number_at(line, 1)? as usize;
    let unit = number_at(line, 2)?;
    let patience = number_at(line, 3)?;
    let mut scratch = [0u8; BYTES];
    let (password, account) = two_at(line, 4, 5, &mut scratch)?;
    let made = node::state::set_up(
        unit,
        patience,
        part(&scratch, 0, password),
        part(&scratch, password, account),
        number_at(line, 6)?,
        number_at(line, 7)?,
        fixed_at(line, 8)?,
        fixed_at(line, 9)?,
    );
    Some(hall::setups::sit(hall, i, made))
}

// `books MILL VISITORS`: both are read before the books that were lent go; they stand one after the other.
pub fn lend(hall: Hall, line: &[u8], books: &mut [u8]) -> Option<Stepped> {
    let mut scratch = [0u8; BYTES];
    let (mill, visitors) = two_at(line, 1, 2, &mut scratch)?;
    put_bytes(books, 0, part(&scratch, 0, mill));
    put_bytes(books, mill, part(&scratch, mill, visitors));
    Some(hall::setups::lend(hall, mill, visitors))
}

// `room N`
pub fn room(hall: Hall, line: &[u8]) -> Option<Stepped> {
    let n = number_at(line, 1)?;
    Some(hall::setups::leave_room(hall, n as usize))
}
