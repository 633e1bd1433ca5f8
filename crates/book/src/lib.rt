// The account book (the paper, 'Account book'): whether it is whole, and what a search of it hands back.
#![tactic(auto)]

mod layout; // where an entry stands
mod entries; // a section's entries as an iterator
mod repeats; // whether a section repeats a key
pub mod whole; // whether a book is whole
pub mod search; // the password of an account, the secret of a router

use octets::part::Part;

// An entry: its key (a router's IPv4 address, an account's name) and its value (the secret, the password).
#[derive(Clone, Copy)]
pub struct Entry {
    pub key: Part,
    pub value: Part,
}

// A section: whether its keys stand after their lengths, where its first entry starts, and how many there are.
#[derive(Clone, Copy, Debug, PartialEq, Eq)]
pub struct Section {
    pub counted: bool,
    pub at: usize,
    pub count: usize,
}
