// A router, a node, the books and the room of output buffers take their place in the hall.
ghost use Rattle.std.specs.Prelude.{◌≡◌};
ghost use Rattle.hall.specs.State.{installs, sits, lends, leaves_room};

use crate::state::{Hall, Stepped, silent, unread, with_node, with_router};
use node::Node;
use places::state::Router;
use refusal::Refusal;

// A router takes its predecessor's place only where its setup is not refused.
pub fn install(hall: Hall, made: Result<Router, Refusal>) -> Stepped
    ensures { result ≡ installs made hall }
{
    match made {
        Err(why) => Stepped {
            hall,
            said: silent(Err(why)),
        },
        Ok(router) => Stepped {
            hall: with_router(hall, router),
            said: silent(Ok(())),
        },
    }
}

// .. and a node that of the one on its seat.
pub fn sit(hall: Hall, i: usize, made: Result<Node, Refusal>) -> Stepped
    ensures { result ≡ sits i made hall }
{
    if Hall::NODES <= i {
        return unread(hall);
    }
    match made {
        Err(why) => Stepped {
            hall,
            said: silent(Err(why)),
        },
        Ok(node) => Stepped {
            hall: with_node(hall, i, node),
            said: silent(Ok(())),
        },
    }
}

// The lengths of the books that are lent.
pub fn lend(hall: Hall, mill: usize, visitors: usize) -> Stepped
    ensures { result ≡ lends mill visitors hall }
{
    let mut after = hall;
    after.lent = true;
    after.mill = mill;
    after.visitors = visitors;
    Stepped {
        hall: after,
        said: silent(Ok(())),
    }
}

// Output buffers have this room from here on.
pub fn leave_room(hall: Hall, room: usize) -> Stepped
    ensures { result ≡ leaves_room room hall }
{
    if Hall::ROOM < room {
        return unread(hall);
    }
    let mut after = hall;
    after.room = room;
    Stepped {
        hall: after,
        said: silent(Ok(())),
    }
}
