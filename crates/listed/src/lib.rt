// What `replay` prints of a message's fields, as the bare readers hand them back (docs/REPLAY.md).
#![tactic(auto)]

mod fields; // fields as the objects that they stand for, and the line of a message
pub mod air; // the readers of MISP
pub mod wired; // the readers of MISAUTH
