// What a router's calls make of one place, and what they share (the paper, 'Steps').
#![tactic(auto)]

pub mod one_place; // one place of a state, and a turn of it
pub mod parts; // the success of a session
