// A section's entries as an iterator: each starts where the last ended.
ghost use Rattle.std.specs.Prelude.{◌≡◌, ◌+◌, ◌*◌, ◌^◌, ◌≤◌, ◌<◌};

use super::layout::entry_at;
use super::{Entry, Section};
use octets::number::number16;
use octets::part::bytes_at;
use octets::same::same;

// The entries that are left of a section of a book.
#[derive(Clone, Copy)]
pub(crate) struct Entries<'a> {
    pub book: &'a [u8],
    pub section: Section,
    // so that an offset is a number that the code can hold, and never that of a free slot
    pub ghost near: { section.at + 512 * section.count < 2 ^ 29 },
    pub ghost past: { 1 ≤ section.at },
}

impl<'a> Entries<'a> {
    ghost use Rattle.book.specs.Entries.{section_at, routers as routers_section, accounts as accounts_section};
    ghost use Rattle.book.specs.Search.{first_match};
    ghost use Rattle.book.specs.Left.{SectionIs, EndIs, entries_left};

    // The section whose count stands at an offset.
    #[tactic(auto, unfolding(crate::specs::Entries::section_at))]
    fn section_at(book: &'a [u8], counted: bool, at: usize) -> Entries<'a>
        requires { at < 2 ^ 28 }
        ensures { SectionIs book.now (section_at counted book.now at) (at + 2) result }
    {
        let section = Section {
            counted,
            at: at + 2,
            count: usize::from(number16(book, at)),
        };
        Entries { book, section }
    }

    // The two sections.
    #[tactic(auto, unfolding(crate::specs::Entries::routers))]
    pub(crate) fn routers(book: &'a [u8]) -> Entries<'a>
        ensures { SectionIs book.now (routers_section book.now) 2 result }
    {
        Entries::section_at(book, false, 0)
    }

    #[tactic(auto, unfolding(crate::specs::Entries::accounts))]
    pub(crate) fn accounts(book: &'a [u8]) -> Entries<'a>
        ensures { SectionIs book.now (accounts_section book.now) (2 ^ 26) result }
    {
        Entries::section_at(book, true, Entries::routers(book).end())
    }

    // Where the last ends.
    #[tactic(auto, using(crate::proofs::LeftLaws::stepped_end, crate::proofs::LeftLaws::ended_end))]
    pub(crate) fn end(mut self) -> usize
        ensures { EndIs self.entry result }
    {
        while let Some(_) = self.next() {}
        self.section.at
    }

    // The first with a key.
    pub(crate) fn with_key(mut self, key: &[u8]) -> Option<Entry>
        ensures { result ≡ first_match self.entry.book.now key.now (entries_left self.entry) }
    {
        let book = self.book;
        self.find(|e| same(bytes_at(book, e.key), key))
    }
}

impl<'a> Iterator for Entries<'a> {
    ghost use Rattle.std.specs.Iterator.{item_count};
    ghost use Rattle.book.specs.Left.{GivesEntry, entries_left};

    type Item = Entry;

    ghost next_gives = { GivesEntry };

    ghost remaining = { item_count entries_left };

    fn next(&mut self) -> Option<Entry> {
        if self.section.count == 0 {
            return None;
        }
        let e = entry_at(self.book, self.section.counted, self.section.at);
        self.section = Section {
            at: e.value.at + e.value.len,
            count: self.section.count - 1,
            ..self.section
        };
        Some(e)
    }
}
