// The three MISAUTH messages: a reader and a writer for each (the paper, 'MISAUTH messages'; document 003, 3 to 5).
#![tactic(auto)]

pub mod accept;
pub mod reject;
pub mod request;
pub mod run;
