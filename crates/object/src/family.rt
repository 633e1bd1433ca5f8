// The two families of messages, MISP and MISAUTH, and what differs between them.
ghost use Rattle.std.specs.Prelude.{◌≡◌};
ghost use Rattle.object.specs.Family.{header_of, limit_of, padded_in, last_in};

// Which family a message is of.
#[derive(Clone, Copy, Debug, PartialEq, Eq, Hash)]
pub enum Family {
    Misp,
    Misauth,
}

impl Family {
    // How many bytes stand before the first object.
    pub fn header(self) -> usize
        ensures { result ≡ header_of self }
    {
        match self {
            Family::Misp => Misp::HEADER,
            Family::Misauth => Misauth::HEADER,
        }
    }

    // The most bytes that a message has.
    pub fn limit(self) -> usize
        ensures { result ≡ limit_of self }
    {
        match self {
            Family::Misp => Misp::LIMIT,
            Family::Misauth => Misauth::LIMIT,
        }
    }

    // Whether type 0 is a single byte of padding.
    pub fn padded(self) -> bool
        ensures { result ≡ padded_in self }
    {
        match self {
            Family::Misp => true,
            Family::Misauth => false,
        }
    }

    // Whether the last object of a type counts, and not the first.
    pub fn last_counts(self) -> bool
        ensures { result ≡ last_in self }
    {
        match self {
            Family::Misp => false,
            Family::Misauth => true,
        }
    }
}

// The home of each family's limits: the size of its header, and the most bytes of a message.
#[derive(Drop)]
pub struct Misp {}

impl Misp {
    pub const HEADER: usize = 4;

    pub const LIMIT: usize = 1500;
}

#[derive(Drop)]
pub struct Misauth {}

impl Misauth {
    pub const HEADER: usize = 20;

    pub const LIMIT: usize = 4096;
}
