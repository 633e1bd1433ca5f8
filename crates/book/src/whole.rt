// Whether a book is whole.
ghost use Rattle.std.specs.Prelude.{◌≡◌};
ghost use Rattle.book.specs.Whole.{length_fits, entry_fits, whole_section, whole_book};

use super::Entry;
use super::entries::Entries;
use super::repeats::distinct;

// Lengths are 1 to 253.
fn length_fits(n: usize) -> bool
    ensures { result ≡ length_fits n }
{
    (1..=253).contains(&n)
}

// So are both lengths of an entry.
#[tactic(auto, unfolding(crate::specs::Whole::entry_fits))]
fn entry_fits(e: Entry) -> bool
    ensures { result ≡ entry_fits e }
{
    length_fits(e.key.len) && length_fits(e.value.len)
}

// A section whose lengths fit and which repeats no key.
#[tactic(auto, unfolding(crate::specs::Whole::whole_section))]
fn whole_section(entries: Entries<'_>) -> bool
    ensures { result ≡ whole_section entries.entry.book.now entries.entry.section }
{
    let mut left = entries;
    left.all(entry_fits) && distinct(entries)
}

// Whether a book is whole: its length, where its last entry ends, and both of its sections.
#[tactic(auto, unfolding(crate::specs::Whole::whole_book))]
pub fn whole(book: &[u8]) -> bool
    ensures { result ≡ whole_book book.now }
{
    if 65536 < book.len() {
        return false;
    }
    let accounts = Entries::accounts(book);
    accounts.end() == book.len() && whole_section(Entries::routers(book)) && whole_section(accounts)
}
