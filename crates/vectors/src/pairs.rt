// The transform pair. In both fields: vectors of N residues, each with its transform and its inverse. Then calls that are refused, with the
// words that they leave.
ghost use Rattle.std.specs.Prelude.{◌<◌, ◌≤◌, length};

use crate::sequence::next;
use crate::text::line;
use fermat::field::modulus_of;
use std::io::{self, Print};

const VECTORS: u64 = 8;

// Fills the words with residues drawn from the sequence, and hands back the seed to go on with.
fn draw(words: &mut [u64], m: u64, seed: u64) -> u64
    requires { 0 < m }
{
    let mut state = seed;
    for word in words.iter_mut() {
        let high = next(state);
        state = next(high);
        *word = (high * 2147483648 + state) % m;
    }
    state
}

// Vector 0 is a 1 at place 1, vector 1 the largest residue there, vector 2 the largest residue everywhere; the others are drawn.
fn vector(words: &mut [u64], number: u64, m: u64, seed: u64) -> u64
    requires { (0 < m) × (1 < length words.old) }
{
    if 2 < number {
        return draw(words, m, seed);
    }
    let word = if number == 0 { 1 } else { m - 1 };
    let others = if number == 2 { word } else { 0 };
    words.fill(others);
    words[1] = word;
    seed
}

fn print_words(out: &impl Print, words: &[u64]) -> io::Result<()> {
    for word in words {
        print!(out; "{word} ")?;
    }
    out.write_all(b"\n")
}

// The transform of the words and their inverse. The inverse is taken twice: the first undoes the transform.
fn print_pair(out: &impl Print, field: usize, words: &mut [u64]) -> io::Result<()> {
    transform::transform(field, words);
    print_words(out, words)?;
    transform::inverse(field, words);
    transform::inverse(field, words);
    print_words(out, words)
}

// One vector, its transform and its inverse.
fn run_vector(
    out: &impl Print,
    field: usize,
    words: &mut [u64],
    number: u64,
    seed: u64,
) -> io::Result<u64>
    requires { (field ≤ 5) × (1 < length words.old) }
{
    let state = vector(words, number, modulus_of(field), seed);
    line(out, b"field # vector #\n", &[field as u64, number])?;
    print_words(out, words)?;
    print_pair(out, field, words)?;
    Ok(state)
}

fn run_field(out: &impl Print, field: usize, words: &mut [u64]) -> io::Result<()>
    requires { (field ≤ 5) × (1 < length words.old) }
{
    let mut seed = field as u64;
    for number in 0..VECTORS {
        seed = run_vector(out, field, words, number, seed)?;
    }
    Ok(())
}

fn set_last(words: &mut [u64], word: u64) {
    if let Some(last) = words.last_mut() {
        *last = word;
    }
}

// Calls on words, the last of which becomes `word`: the answers of both routines, and the words that they leave.
fn refuse(out: &impl Print, field: usize, words: &mut [u64], word: u64) -> io::Result<()> {
    set_last(words, word);
    let code = transform::transform(field, words);
    let again = transform::inverse(field, words);
    line(out, b"refused # # ", &[code as u64, again as u64])?;
    print_words(out, words)
}

// The same on the first `len` of 64 words 7.
fn refuse_first(out: &impl Print, field: usize, len: usize, word: u64) -> io::Result<()>
    requires { len ≤ 64 }
{
    let mut words = [7u64; 64];
    refuse(out, field, &mut words[..len], word)
}

pub fn run(out: &impl Print) -> io::Result<()> {
    let mut small = [0u64; 32];
    run_field(out, 4, &mut small)?;
    let mut large = [0u64; 64];
    run_field(out, 5, &mut large)?;
    refuse_first(out, 0, 0, 0)?;
    refuse_first(out, 3, 31, 65537)?;
    refuse_first(out, 6, 64, 1)?;
    refuse_first(out, 18446744073709551615, 64, 1)?;
    refuse_first(out, 4, 0, 0)?;
    refuse_first(out, 4, 31, 65537)?;
    refuse_first(out, 4, 33, 1)?;
    refuse_first(out, 4, 64, 1)?;
    refuse_first(out, 5, 32, 1)?;
    refuse_first(out, 5, 63, 1)?;
    refuse_first(out, 4, 32, 65537)?;
    refuse_first(out, 4, 32, 18446744073709551615)?;
    refuse_first(out, 5, 64, 4294967297)?;
    Ok(())
}
