// The server of the hall, with the books that were lent.
ghost use Rattle.std.specs.Prelude.{◌≡◌};
ghost use Rattle.refusal.specs.Step.{Leaves};
ghost use Rattle.hall.specs.Calls.{by_server, at_server};

use crate::state::{Hall, Stepped, said, silent, unread};
use octets::number::part;
use refusal::{Refusal, To};

// What is written goes back to where the message came from.
fn after(hall: Hall, w: Result<usize, Refusal>) -> Stepped
    ensures { result ≡ by_server hall w }
{
    match w {
        Err(why) => Stepped {
            hall,
            said: silent(Err(why)),
        },
        Ok(n) => Stepped {
            hall,
            said: said(Ok(()), n, To::Nobody),
        },
    }
}

// `login IPV4 MESSAGE`
pub fn login(hall: Hall, books: &[u8], source: [u8; 4], m: &[u8], out: &mut [u8]) -> Stepped
    ensures { Leaves (at_server hall books.now source m.now out.old) result out.new }
{
    if !hall.lent {
        return unread(hall);
    }
    let mill = part(books, 0, hall.mill);
    let visitors = part(books, hall.mill, hall.visitors);
    after(hall, server::login(mill, visitors, source, m, out))
}
