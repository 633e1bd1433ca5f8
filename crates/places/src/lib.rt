// The state of a base router: its settings, its clock and its 64 places (the paper, 'Steps').
#![tactic(auto)]

pub mod place; // a place, its attempt and its session; what lapses
pub mod state; // settings and the whole state, setup, and the report of the taken places
