// The lines of the program `replay`: their words, the numbers and byte strings in them, and the lines that it prints.
#![tactic(auto)]

pub mod words; // the words of a line
pub mod reading; // numbers and byte strings that words say
pub mod printing; // what is printed, put into a lent buffer
