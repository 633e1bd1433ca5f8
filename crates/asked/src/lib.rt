// What a line of `replay` asks for: its call, and the arguments of it (docs/REPLAY.md).
#![tactic(auto)]

pub mod arguments; // the words of a line as numbers and byte strings
pub mod verb; // which call a line makes
