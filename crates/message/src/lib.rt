// What all kinds of message share: the header, the tests 1 to 6, the fields of an object, and writing.
#![tactic(auto)]

pub mod reading; // the header, and the tests that every reader makes
pub mod field; // the value of an object as bytes, as a number, as a part of the message; S
pub mod writing; // the header and objects, written into a lent buffer
pub mod misp; // codes and types of MISP
pub mod misauth; // of MISAUTH
