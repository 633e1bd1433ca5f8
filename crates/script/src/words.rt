// The words of a line, which are parted by one space.
ghost use Rattle.std.specs.Prelude.{◌≡◌, ◌+◌, length, drop};
ghost use Rattle.script.specs.Words.{up_to, words_of, word_of};

// The first place from an offset on at which a mark stands; the end where there is none.
pub fn end_of(s: &[u8], from: usize, mark: u8) -> usize
    ensures { result ≡ from + length (up_to mark (drop from s.now)) }
{
    if s.len() < from {
        return from;
    }
    let rest = &s[from..];
    from + rest.iter().position(|b| *b == mark).unwrap_or(rest.len())
}

// How many words a line has; one that is empty has one, which is empty.
pub fn count_words(line: &[u8]) -> usize
    ensures { result ≡ length (words_of line.now) }
{
    line.split(|b| *b == b' ').count()
}

// The word that `n` others precede; past the last word it is empty, which no reader of a word takes.
pub fn nth_word(line: &[u8], n: usize) -> &[u8]
    ensures { result.now ≡ word_of line.now n }
{
    line.split(|b| *b == b' ').nth(n).unwrap_or(b"")
}
