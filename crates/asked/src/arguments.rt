// The arguments of a line: its words read as numbers and as byte strings.
ghost use Rattle.std.specs.Prelude.{◌≡◌};
ghost use Rattle.script.specs.Words.{word_of};
ghost use Rattle.script.specs.Decimal.{decimal_of};
ghost use Rattle.script.specs.Hex.{ReadInto};
ghost use Rattle.asked.specs.Arguments.{is_call, up_to_most, fixed_of};

use script::words::{count_words, nth_word};

// Whether a line's first word is this one and the line has so many words.
#[tactic(auto, unfolding(crate::specs::Arguments::is_call))]
pub fn is_call(line: &[u8], name: &[u8], words: usize) -> bool
    ensures { result ≡ is_call line.now name.now words }
{
    nth_word(line, 0) == name && count_words(line) == words
}

// The number that a word says.
pub fn number_at(line: &[u8], word: usize) -> Option<u64>
    ensures { result ≡ decimal_of (word_of line.now word) }
{
    script::reading::decimal(nth_word(line, word))
}

// A number from 0 to `most`.
#[tactic(auto, unfolding(crate::specs::Arguments::up_to_most))]
pub fn number_to(line: &[u8], word: usize, most: u64) -> Option<u64>
    ensures { result ≡ up_to_most most (decimal_of (word_of line.now word)) }
{
    number_at(line, word).filter(|n| *n <= most)
}

// A byte string, read to the start of a buffer.
pub fn bytes_at(line: &[u8], word: usize, out: &mut [u8]) -> Option<usize>
    ensures { ReadInto (word_of line.now word) out.old out.new result }
{
    script::reading::unhex(nth_word(line, word), out)
}

// A byte string of a fixed length.
pub fn fixed_at<const N: usize>(line: &[u8], word: usize) -> Option<[u8; N]>
    ensures { result ≡ fixed_of N (word_of line.now word) }
{
    let mut bytes = [0u8; N];
    let n = bytes_at(line, word, &mut bytes)?;
    (n == N).then_some(bytes)
}
