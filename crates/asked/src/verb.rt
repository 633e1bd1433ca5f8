// What a line asks for: its first word, with the number of words that its call takes.
ghost use Rattle.std.specs.Prelude.{◌≡◌, map};
ghost use Rattle.asked.specs.Verb.{form, verb_in, verb_of};

use crate::arguments::is_call;

// The calls on the router, and those on a node.
#[derive(Clone, Copy, Debug, PartialEq, Eq)]
pub enum RouterCall {
    Beacon,
    Request,
    Reply,
    Close,
    Closed,
}

#[derive(Clone, Copy, Debug, PartialEq, Eq)]
pub enum NodeCall {
    Hear,
    Success,
    Failure,
    Leave,
    Left,
}

// A setup, the books, the room, a call on a party, a report, a bare reader.
#[derive(Clone, Copy, Debug, PartialEq, Eq)]
pub enum Verb {
    Router,
    Node,
    Books,
    Room,
    AtRouter(RouterCall),
    AtNode(NodeCall),
    Login,
    Taken,
    Places,
    State,
    Read,
    ReadAuth,
}

// The lines of the language: the first word, how many words there are, and what it asks for.
const FORMS: [(&[u8], usize, Verb); 20] = [
    (b"router", 11, Verb::Router),
    (b"node", 10, Verb::Node),
    (b"books", 3, Verb::Books),
    (b"room", 2, Verb::Room),
    (b"login", 3, Verb::Login),
    (b"beacon", 3, Verb::AtRouter(RouterCall::Beacon)),
    (b"request", 4, Verb::AtRouter(RouterCall::Request)),
    (b"reply", 3, Verb::AtRouter(RouterCall::Reply)),
    (b"close", 3, Verb::AtRouter(RouterCall::Close)),
    (b"closed", 4, Verb::AtRouter(RouterCall::Closed)),
    (b"hear", 5, Verb::AtNode(NodeCall::Hear)),
    (b"success", 4, Verb::AtNode(NodeCall::Success)),
    (b"failure", 4, Verb::AtNode(NodeCall::Failure)),
    (b"leave", 3, Verb::AtNode(NodeCall::Leave)),
    (b"left", 4, Verb::AtNode(NodeCall::Left)),
    (b"taken", 1, Verb::Taken),
    (b"places", 1, Verb::Places),
    (b"state", 2, Verb::State),
    (b"read", 2, Verb::Read),
    (b"readauth", 2, Verb::ReadAuth),
];

// What the first of some forms that a line has asks for; nothing where it has none.
fn verb_in(forms: &[(&[u8], usize, Verb)], line: &[u8]) -> Option<Verb>
    ensures { result ≡ verb_in (map (λ f. form f.0.now f.1 f.2) forms.now) line.now }
{
    for (name, words, verb) in forms {
        if is_call(line, name, *words) {
            return Some(*verb);
        }
    }
    None
}

// What a line asks for.
#[tactic(auto, unfolding(crate::specs::Verb::verb_of))]
pub fn verb_of(line: &[u8]) -> Option<Verb>
    ensures { result ≡ verb_of line.now }
{
    verb_in(&FORMS, line)
}
