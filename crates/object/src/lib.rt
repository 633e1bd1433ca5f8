// Objects: what differs between the two families of messages, the length rule of each type, and the walk over a message's objects.
#![tactic(auto)]

pub mod family; // header and limit of each family, padding, which object of a type counts
pub mod rule; // the lengths that an object of a type may have
pub mod walk; // one step, the walk, and the object of a type that counts
pub mod objects; // the objects as an iterator
