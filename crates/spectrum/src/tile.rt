// The transforms of a tile: n rows of n words, columns and rows each as n lanes. The forward transform leaves rows and columns in each other's place
// and in bit-reversed order; the inverse takes them so, and leaves out the division by n * n. Words are congruent and bounded, as in `passes`.
ghost use Rattle.std.specs.Prelude.{◌≡◌, ◌*◌, ◌<◌, length};
ghost use Rattle.passes.specs.Butterfly.{AtMost};
ghost use Rattle.passes.specs.Passes.{passes};
ghost use Rattle.spectrum.specs.Tile.{TileTransformed, Square};

use passes::order::transpose;
use passes::{Residues, Transform, transform_lanes};

// The words after a transform of length n.
pub(crate) fn transformed(residues: Residues, n: usize) -> Residues
    requires { (0 < n) × (residues.bound * n < 9223372036854775808) }
    ensures { (result.bits ≡ residues.bits) × (result.bound ≡ residues.bound * n) }
{
    Residues {
        bits: residues.bits,
        bound: residues.bound * n as u64,
    }
}

// Columns, then rows.
pub(crate) fn transform_tile<T: Transform>(words: &mut [u64], n: usize, residues: Residues)
    requires square { Square (length words.old) n (passes n) residues.bits residues.bound }
    requires at_most { AtMost residues.bound words.old }
    ensures tile_transformed { TileTransformed T.direction residues.bits (passes n) n words.old words.new }
    ensures at_most_2 { AtMost (residues.bound * n * n) words.new }
{
    transform_lanes::<T>(words, n, n, n, 1, residues);
    transpose(words, n);
    transform_lanes::<T>(words, n, n, n, 1, transformed(residues, n));
}
