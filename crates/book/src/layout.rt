// Where an entry stands. A byte past the book's end reads as 0.
ghost use Rattle.std.specs.Prelude.{◌+◌, ◌^◌, ◌≤◌, ◌<◌};
ghost use Rattle.book.specs.Entries.{entry_of, entry_at};
ghost use Rattle.book.specs.Bounds.{EntryIs};

use super::Entry;
use octets::number::byte_at;
use octets::part::Part;

// The entry whose key has `size` bytes from an offset on.
#[tactic(auto, unfolding(crate::specs::Entries::entry_of))]
fn entry_of(book: &[u8], at: usize, size: usize) -> Entry
    requires { (at ≤ 2 ^ 32) × (size < 256) }
    ensures { EntryIs (entry_of book.now at size) (at + size + 256) result }
{
    let after = at + size;
    Entry {
        key: Part { at, len: size },
        value: Part {
            at: after + 1,
            len: usize::from(byte_at(book, after)),
        },
    }
}

// The entry at an offset: a router's key has 4 bytes, an account's stands after its length.
#[tactic(auto, unfolding(crate::specs::Entries::entry_at))]
pub(crate) fn entry_at(book: &[u8], counted: bool, at: usize) -> Entry
    requires { at < 2 ^ 32 }
    ensures { EntryIs (entry_at counted book.now at) (at + 512) result }
{
    if counted {
        entry_of(book, at + 1, usize::from(byte_at(book, at)))
    } else {
        entry_of(book, at, 4)
    }
}
