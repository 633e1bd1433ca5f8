// What the stored states of all parties share: each field of a record is laid after the other, numbers most significant byte first.
#![tactic(auto)]

pub mod field; // flags, arrays and held byte strings
pub mod stored; // a field of a record, put and read
