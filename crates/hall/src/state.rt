// The parties of a hall, each absent at the start, and what a call leaves of them.
ghost use Rattle.std.specs.Prelude.{◌≡◌, ◌*◌, min};
ghost use Rattle.hall.specs.State.{empty_hall, unread, said_of, silently, router_of, with_router, is_present, node_of, with_node};

use laid::field::flag;
use node::Node;
use octets::number::part;
use octets::put::put_bytes;
use places::state::Router;
use refusal::{Refusal, To};
use storednode::node_state;
use storedrouter::router_state;
use told::printing::Said;

// The states stand as bytes: the router's, and those of the nodes one after the other; `present` is 1 where a node is there. The two books
// stand one after the other in a lent array; `mill` and `visitors` are their lengths. Output buffers have `room` bytes.
#[derive(Clone, Copy)]
pub struct Hall {
    pub installed: bool,
    pub router: [u8; router_state::SIZE],
    pub present: [u8; Hall::NODES],
    pub nodes: [u8; Hall::NODES * node_state::SIZE],
    pub lent: bool,
    pub mill: usize,
    pub visitors: usize,
    pub room: usize,
}

impl Hall {
    pub const NODES: usize = 8;

    // The most bytes that an output buffer has.
    pub const ROOM: usize = 4096;
}

// The hall after a line, and what is said of its call; of a line that makes none nothing is said.
#[derive(Drop)]
pub struct Stepped {
    pub hall: Hall,
    pub said: Option<Said>,
}

// Nobody is there, and nothing is lent.
pub fn empty() -> Hall
    ensures { result ≡ empty_hall }
{
    Hall {
        installed: false,
        router: [0u8; router_state::SIZE],
        present: [0u8; Hall::NODES],
        nodes: [0u8; Hall::NODES * node_state::SIZE],
        lent: false,
        mill: 0,
        visitors: 0,
        room: Hall::ROOM,
    }
}

// The answer of a call: how many bytes it wrote, and to whom they go.
pub(crate) fn said(answer: Result<(), Refusal>, written: usize, to: To) -> Option<Said>
    ensures { result ≡ said_of answer written to }
{
    Some(Said {
        answer,
        written,
        to,
    })
}

// Nothing is written.
pub(crate) fn silent(answer: Result<(), Refusal>) -> Option<Said>
    ensures { result ≡ silently answer }
{
    said(answer, 0, To::Nobody)
}

// A line that cannot be read, or one on a party that is absent: nothing changes.
pub fn unread(hall: Hall) -> Stepped
    ensures { result ≡ unread hall }
{
    Stepped { hall, said: None }
}

// The router, where one is installed.
pub(crate) fn router_of(hall: Hall) -> Router
    ensures { result ≡ router_of hall }
{
    let state = hall.router;
    router_state::load(&state)
}

// The same hall with this router.
pub(crate) fn with_router(hall: Hall, router: Router) -> Hall
    ensures { result ≡ with_router router hall }
{
    let state = router_state::bytes(router);
    let mut after = hall;
    after.installed = true;
    after.router = state;
    after
}

// Whether there is a node with this number.
pub(crate) fn is_present(hall: Hall, i: usize) -> bool
    ensures { result ≡ is_present i hall }
{
    let present = hall.present;
    flag(&present, i)
}

// Where a node's state starts; from 8 on it is the end of them all.
fn start(i: usize) -> usize
    ensures { result ≡ min i 8 * 623 }
{
    if i < Hall::NODES {
        i * node_state::SIZE
    } else {
        Hall::NODES * node_state::SIZE
    }
}

// The node with this number.
pub(crate) fn node_of(hall: Hall, i: usize) -> Node
    ensures { result ≡ node_of i hall }
{
    let nodes = hall.nodes;
    node_state::load(part(&nodes, start(i), node_state::SIZE))
}

// The same hall with this node; nothing changes where it has no place.
pub(crate) fn with_node(hall: Hall, i: usize, node: Node) -> Hall
    ensures { result ≡ with_node i node hall }
{
    let mut present = hall.present;
    let mut nodes = hall.nodes;
    let state = node_state::bytes(node);
    put_bytes(&mut present, i, &[1u8]);
    put_bytes(&mut nodes, start(i), &state);
    let mut after = hall;
    after.present = present;
    after.nodes = nodes;
    after
}
