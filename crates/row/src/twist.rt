// The step between the two transforms of a row: each of its 256 words, in 16 rows of 16, times a power of the root. The powers come from the table.
// It rests on the bit-reversed order of `passes` and on the product of `spectrum`, brought down.
ghost use Rattle.std.specs.Prelude.{◌≡◌, ℕ, ◌<◌, ◌≤◌, length, get_or};
ghost use Rattle.passes.specs.Butterfly.{AtMost};
ghost use Rattle.spectrum.specs.Product.{factor_most};
ghost use Rattle.row.specs.Row.{frequency_of, Factors, Multiplied, Twisted};

use crate::table::PowerTable;
use passes::order::reverse;
use spectrum::product::{F4, Field};

// The frequency, below 16, that stands in row r or column r.
fn frequency(r: usize) -> usize
    requires { r < 16 }
    ensures { result ≡ frequency_of r }
{
    11 * reverse(r, 4) % 16
}

// The powers of the root with the exponents 0, step, 2 step .. 15 step.
fn factors_of(step: usize, powers: &PowerTable) -> [u64; 16]
    requires { step ≤ 4096 }
    ensures { Factors step result }
{
    let mut factors = [0u64; 16];
    for (j, factor) in factors.iter_mut().enumerate() {
        *factor = powers.power(j * step);
    }
    factors
}

// Each of 16 words times its factor, read by its place: after a `zip` with `iter_mut`, as it was tried, the proof knows nothing of the words.
fn times(words: &mut [u64], factors: &[u64; 16])
    requires { (length words.old ≡ 16) × AtMost (factor_most 4) words.old × ((j : ℕ) → j < 16 → get_or factors.now j 0 ≤ factor_most 4) }
    ensures { Multiplied factors.now words.old words.new }
{
    for (j, word) in words.iter_mut().enumerate() {
        *word = F4::settled(F4::product(*word, factors[j]));
    }
}

// Word j of row r times the power of the root whose exponent is j times `unit` times the frequency of the row. The factors of a row are in an
// array of their own before the loop that multiplies, so that it works on several words at once. The rows are cut out by their places:
// after `chunks_exact_mut`, as it was tried, the proof knows nothing of the words.
pub(crate) fn twist(words: &mut [u64], unit: usize, powers: &PowerTable)
    requires { (length words.old ≡ 256) × (unit ≤ 255) × AtMost (factor_most 4) words.old }
    ensures { Twisted unit 16 words.old words.new }
{
    for r in 0..16 {
        let at = 16 * r;
        let end = at + 16;
        let factors = factors_of(unit * frequency(r), powers);
        times(&mut words[at..end], &factors);
    }
}
