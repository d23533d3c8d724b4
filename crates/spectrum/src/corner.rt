// The forward transform of a tile of which only the corner is not 0: the first k of its n rows and columns, such as a kernel fills.
// The columns are k lanes instead of n, and both transforms leave out the butterflies of rows that are 0. One buffer of the tile's length
// serves both: k is at most half of n, so that n rows of k words at its end and k rows of n words at its front do not meet.
ghost use Rattle.std.specs.Prelude.{◌≡◌, ◌+◌, ◌*◌, ◌^◌, ◌<◌, ◌≤◌, length};
ghost use Rattle.algebra.specs.Places.{Written, Run};
ghost use Rattle.passes.specs.Butterfly.{AtMost};
ghost use Rattle.passes.specs.Passes.{passes};
ghost use Rattle.spectrum.specs.Tile.{TileForward, Square};
ghost use Rattle.spectrum.specs.Corner.{corner_start, corner, Cornered, transposed_word, Widened};

use crate::tile::transformed;
use passes::{Residues, forward};

// Row r becomes column r of the n rows of k words at the end.
fn widen_row(words: &mut [u64], n: usize, k: usize, r: usize)
    requires { (length words.old ≡ n * n) × (2 * k ≤ n) × (r < k) }
    ensures { Written 0 (Run (r * n) n) (transposed_word n k words.old) words.old words.new }
{
    let first = r * n;
    let from = n * n - n * k + r;
    for c in 0..n {
        words[first + c] = words[from + c * k];
    }
}

// From n rows of k words at the end to k rows of n words at the front, columns to rows; the other rows become 0.
fn widen(words: &mut [u64], n: usize, k: usize)
    requires { (length words.old ≡ n * n) × (2 * k ≤ n) }
    ensures { Widened n k words.old words.new }
{
    for r in 0..k {
        widen_row(words, n, k, r);
    }
    words[k * n..].fill(0);
}

// The transform of the corner at the end takes the place of the whole, as `transform_tile` leaves that of a whole tile.
pub(crate) fn forward_corner(words: &mut [u64], n: usize, k: usize, residues: Residues)
    requires square { Square (n * n) n (passes n) residues.bits residues.bound }
    requires cornered { Cornered n k residues.bound words.old }
    ensures tile_forward { TileForward (2 ^ residues.bits + 1) 2 (passes n) n (corner k (corner_start n k) words.old) 0 words.new }
    ensures at_most { AtMost (residues.bound * n * n) words.new }
{
    let from = n * n - n * k;
    forward(&mut words[from..], n, k, k, 1, residues);
    widen(words, n, k);
    forward(words, n, k, n, 1, transformed(residues, n));
}
