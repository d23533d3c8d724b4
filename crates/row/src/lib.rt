// The transform pair of 256 words in F_4 at the root 3^256, which is 282. The words are laid out as 16 rows of 16: a transform of each column, each
// word times a power of the root, rows and columns in each other's place, and a transform of each column again. The transforms of 16 words are those
// of `passes` at the root 4. That is the root to the power 16 · 11, so that the frequency k at the root 4 is 11 k at the root to the power 16.
// The words are brought down and become residues as in `spectrum`.
#![tactic(auto)]

ghost use Rattle.std.specs.Prelude.{◌≡◌, ◌*◌, length, get_or};
ghost use Rattle.fermat.specs.Field.{modulus};
ghost use Rattle.passes.specs.Butterfly.{AtMost};
ghost use Rattle.passes.specs.Halving.{Filled};
ghost use Rattle.spectrum.specs.Product.{factor_most, settled_most};
ghost use Rattle.row.specs.Row.{RowSpectrum, RowRecovered};

use passes::order::transpose;
use passes::{Residues, forward, inverse};
use spectrum::bounds::settled;
use spectrum::product::offset_residues;
use spectrum::value::offset_of;
use table::PowerTable;
use twist::twist;

pub mod table;
mod twist;

// The rows, and the words of each.
const SIDE: usize = 16;

// The root of their transforms, 4, is 2 to this power.
const UNIT: u32 = 2;

// The words of a row are 2 to this power.
const HALVINGS: u32 = 8;

// The transform of 256 words of which the rows of 16 from `filled` on are 0.
pub fn row_spectrum(words: &mut [u64], filled: usize, powers: &PowerTable)
    requires { (length words.old ≡ 256) × AtMost (2 * modulus 4) words.old × Filled filled 16 words.old }
    ensures row_spectrum { RowSpectrum (λ i. get_or words.old i 0) 0 words.new }
    ensures at_most { AtMost (factor_most 4) words.new }
{
    forward(words, SIDE, filled, SIDE, UNIT, Residues::of_field(4));
    twist(words, 1, powers);
    transpose(words, SIDE);
    forward(words, SIDE, SIDE, SIDE, UNIT, settled(4));
}

// From a transform, such as a sum of products of transforms that is brought down, back to the 256 words: each as a residue, with the offset added.
// The powers of the inverse of the root are those of the root with the exponents times 255.
pub fn recover_row(words: &mut [u64], powers: &PowerTable)
    requires { (length words.old ≡ 256) × AtMost (settled_most 4) words.old }
    ensures { RowRecovered words.old words.new }
{
    let residues = settled(4);
    inverse(words, SIDE, SIDE, UNIT, residues);
    transpose(words, SIDE);
    twist(words, 255, powers);
    inverse(words, SIDE, SIDE, UNIT, residues);
    offset_residues(words, residues.bits, HALVINGS, offset_of(4));
}
