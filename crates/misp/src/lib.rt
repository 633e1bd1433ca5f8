// The MISP control messages but the beacon: a reader and a writer for each (the paper, 'MISP messages'; document 000, 4.5).
#![tactic(auto)]

pub mod failure;
pub mod request;
pub mod success;
pub mod terminating;
