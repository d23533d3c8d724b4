// Reading: the words of a text, one after the other, and the numbers that they are. A text may be cut off: see `words_from`.
#![tactic(auto)]

ghost use Rattle.std.specs.Prelude.{◌≡◌, ◌≤◌, true, false, not, ℕ, eqb, [], length, map, take, MatchOption, MatchResult, OnOk};
ghost use Rattle.std.specs.List.{position_or_len};
ghost use Rattle.words.specs.Words.{is_separator, words_of};
ghost use Rattle.words.specs.Reading.{NextWord, WordsRead, WordsRefused};

use crate::number::Number;

pub mod number;

// A word, and the text after it.
#[derive(Clone, Copy)]
struct Word<'a> {
    bytes: &'a [u8],
    rest: &'a [u8],
}

// A space or a newline.
fn is_separator(byte: u8) -> bool
    ensures { result ≡ is_separator byte }
{
    byte == b' ' || byte == b'\n'
}

// How many separators stand at the front of a text.
fn separators(text: &[u8]) -> usize
    ensures value { result ≡ position_or_len (λ byte. not (is_separator byte)) text.now }
    ensures bound { result ≤ length text.now }
{
    text.iter()
        .position(|byte| !is_separator(*byte))
        .unwrap_or(text.len())
}

// How many bytes stand before the first separator.
fn others(text: &[u8]) -> usize
    ensures value { result ≡ position_or_len is_separator text.now }
    ensures bound { result ≤ length text.now }
{
    text.iter()
        .position(|byte| is_separator(*byte))
        .unwrap_or(text.len())
}

// The next word. In a text that is cut off, the word that touches its end is none.
fn next_word(text: &[u8], cut: bool) -> Option<Word<'_>>
    ensures { MatchOption result (words_of cut text.now ≡ []) (λ word. NextWord cut text.now word.bytes.now word.rest.now) }
{
    let (_, start) = text.split_at(separators(text));
    let (bytes, rest) = start.split_at(others(start));
    if bytes.is_empty() {
        return None;
    }
    if cut && rest.is_empty() {
        return None;
    }
    Some(Word { bytes, rest })
}

// As many numbers as there is room for: `Ok` with the text after them. Where the next word is no such number, or no word is left, `Err` with the text
// after those that were read.
pub fn read_numbers<'a, T: Number>(
    text: &'a [u8],
    cut: bool,
    numbers: &mut [T],
) -> Result<&'a [u8], &'a [u8]>
    ensures words_read { MatchResult result (λ rest. WordsRead T.is_number cut text.now (length numbers.old) rest.now)
        (λ rest. WordsRefused T.is_number cut text.now (length numbers.old) rest.now) }
    ensures numbers_after { OnOk result (numbers.new ≡ map T.value_of (take (length numbers.old) (words_of cut text.now))) }
{
    let mut rest = text;
    for number in numbers.iter_mut() {
        let word = next_word(rest, cut).ok_or(rest)?;
        *number = T::from_word(word.bytes).ok_or(rest)?;
        rest = word.rest;
    }
    Ok(rest)
}

// Whether no word is left.
pub fn no_more(text: &[u8]) -> bool
    ensures { result ≡ eqb (length (words_of false text.now)) 0 }
{
    next_word(text, false).is_none()
}
