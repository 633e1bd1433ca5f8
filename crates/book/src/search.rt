// What a search of the books hands back.
ghost use Rattle.std.specs.Prelude.{◌≡◌};
ghost use Rattle.book.specs.Search.{password_in, password_of, secret_in, secret_of};

use super::entries::Entries;
use super::whole::whole;
use octets::part::bytes_at;

// A router's secret, out of a book that was found whole; empty where it is not there.
#[tactic(auto, unfolding(crate::specs::Search::secret_in, crate::specs::Entries::entry_value))]
pub fn secret_in<'a>(mill: &'a [u8], address: &[u8]) -> &'a [u8]
    ensures { result.now ≡ secret_in mill.now address.now }
{
    match Entries::routers(mill).with_key(address) {
        Some(e) => bytes_at(mill, e.value),
        None => &mill[..0],
    }
}

// The same, empty where the book is broken too.
#[tactic(auto, unfolding(crate::specs::Search::secret_of))]
pub fn secret<'a>(mill: &'a [u8], address: &[u8]) -> &'a [u8]
    ensures { result.now ≡ secret_of mill.now address.now }
{
    if whole(mill) {
        secret_in(mill, address)
    } else {
        &mill[..0]
    }
}

// An account's password, out of books that were found whole; empty where none matches.
// The search ends at the first match, whichever book it stands in.
// Stays: loops with labels and the bytes compared inside, since the paper names that form for this search (one of the nine).
#[tactic(auto, using(octets::proofs::SameLaws::same_step, crate::proofs::SearchLaws::book_is, crate::proofs::SearchLaws::unmatched, crate::proofs::LeftLaws::found_none))]
pub fn password_in<'a>(mill: &'a [u8], visitors: &'a [u8], name: &[u8]) -> &'a [u8]
    ensures { result.now ≡ password_in mill.now visitors.now name.now }
{
    let mut password = &mill[..0];
    'books: for book in [mill, visitors] {
        'entries: for e in Entries::accounts(book) {
            let key = bytes_at(book, e.key);
            if key.len() != name.len() {
                continue 'entries;
            }
            for i in 0..name.len() {
                if key[i] != name[i] {
                    continue 'entries;
                }
            }
            password = bytes_at(book, e.value);
            break 'books;
        }
    }
    password
}

// The same, empty where either book is broken too.
#[tactic(auto, unfolding(crate::specs::Search::password_of))]
pub fn password<'a>(mill: &'a [u8], visitors: &'a [u8], name: &[u8]) -> &'a [u8]
    ensures { result.now ≡ password_of mill.now visitors.now name.now }
{
    if whole(mill) && whole(visitors) {
        password_in(mill, visitors, name)
    } else {
        &mill[..0]
    }
}
