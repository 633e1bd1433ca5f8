// The beacon, the largest of the five MISP control messages: its reader and its writer (the paper, 'MISP messages'; document 000, 4.5.2).
#![tactic(auto)]

pub mod beacon;
