// Whether a section repeats a key.
ghost use Rattle.std.specs.Prelude.{◌≡◌, ◌^◌, ◌≤◌, ◌<◌, length};
ghost use Rattle.book.specs.Whole.{distinct as distinct_keys};
ghost use Rattle.book.specs.Slots.{slot_of, next_of, Probed};
ghost use Rattle.book.specs.Bounds.{Cleared};
ghost use Rattle.book.specs.Left.{keys_left};

use super::entries::Entries;
use super::layout::entry_at;
use octets::part::bytes_at;
use octets::same::same;

// Each key is none of those after it, compared with each of them.
#[tactic(auto, using(crate::proofs::LeftLaws::differ_not, crate::proofs::LeftLaws::differ_none))]
fn distinct_by_pairs(mut entries: Entries<'_>) -> bool
    ensures { result ≡ distinct_keys (keys_left entries.entry) }
{
    while let Some(e) = entries.next() {
        if entries.with_key(bytes_at(entries.book, e.key)).is_some() {
            return false;
        }
    }
    true
}

// The slot at which the search for a key starts, of n slots. Right answers do not rest on how well keys spread.
#[tactic(auto, using(crate::proofs::SlotLaws::mixed_step, crate::proofs::SlotLaws::mixed_end), unfolding(crate::specs::Slots::slot_of))]
fn slot_of(key: &[u8], n: usize) -> usize
    requires { n ≤ 2 ^ 32 }
    ensures { result ≡ slot_of n key.now }
{
    let mut h: usize = 0;
    for b in key {
        h = (h + usize::from(*b)) * 16777619 % 4294967296;
    }
    h * n / 4294967296
}

// The slot after one of n slots; after the last comes the first.
fn next_slot(slot: usize, n: usize) -> usize
    requires { slot < n }
    ensures { result ≡ next_of n slot }
{
    if slot + 1 == n { 0 } else { slot + 1 }
}

// What the slots say of a key: where it has its place, that it stands there already, or that no slot is free.
#[derive(Clone, Copy, Debug, PartialEq, Eq)]
pub(crate) enum Slot {
    Free(usize),
    Taken,
    Full,
}

// Looks for a key from its own slot on. A slot holds where an entry starts, or 0 where it is free.
#[tactic(auto, using(crate::proofs::SlotLaws::look_within, crate::proofs::SlotLaws::look_next, crate::proofs::SlotLaws::taken_here, crate::proofs::SlotLaws::passes_here, crate::proofs::LeftLaws::tested), unfolding(crate::specs::Slots::slot_at))]
fn probe(entries: Entries<'_>, slots: &[u16], key: &[u8]) -> Slot
    requires { length slots.now ≤ 2 ^ 32 }
    ensures { Probed entries.entry.section.counted entries.entry.book.now slots.now key.now result }
{
    let mut slot = slot_of(key, slots.len());
    for _ in 0..slots.len() {
        let at = usize::from(slots[slot]);
        if at == 0 {
            return Slot::Free(slot);
        }
        let e = entry_at(entries.book, entries.section.counted, at);
        if same(bytes_at(entries.book, e.key), key) {
            return Slot::Taken;
        }
        slot = next_slot(slot, slots.len());
    }
    Slot::Full
}

// The same by slots, any number of them that are free: a key is compared only with those that its search meets, so the time grows with the
// bytes of the keys. Keys picked to start at one slot would make it grow as by pairs.
#[tactic(auto, using(crate::proofs::SlotLaws::placed_none, crate::proofs::SlotLaws::turn_free))]
fn distinct_by_slots(entries: Entries<'_>, slots: &mut [u16]) -> bool
    requires { Cleared slots.old }
    ensures { result ≡ distinct_keys (keys_left entries.entry) }
{
    let mut at = entries.section.at;
    for e in entries {
        match probe(entries, slots, bytes_at(entries.book, e.key)) {
            Slot::Taken => return false,
            Slot::Full => return distinct_by_pairs(entries),
            Slot::Free(slot) => {
                // in a book of 65,536 bytes or fewer every entry starts below that
                let Ok(start) = u16::try_from(at) else {
                    return distinct_by_pairs(entries);
                };
                slots[slot] = start;
            }
        }
        at = e.value.at + e.value.len;
    }
    true
}

// By N slots.
// Stays: an array and no Vec, since nothing that C links has a heap (a rule of the project).
fn distinct_in<const N: usize>(entries: Entries<'_>) -> bool
    requires { N ≤ 2 ^ 32 }
    ensures { result ≡ distinct_keys (keys_left entries.entry) }
{
    let mut slots = [0u16; N];
    distinct_by_slots(entries, &mut slots)
}

// The slots have to be cleared first: few keys are not worth any, and a small section not as many (4 KB) as the largest (64 KB).
pub(crate) fn distinct(entries: Entries<'_>) -> bool
    ensures { result ≡ distinct_keys (keys_left entries.entry) }
{
    match entries.section.count {
        0..=16 => distinct_by_pairs(entries),
        17..=512 => distinct_in::<2048>(entries),
        _ => distinct_in::<32768>(entries),
    }
}
