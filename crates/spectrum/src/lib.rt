// The transforms of a tile by the number of its field: from loaded words, at most twice the modulus, to words that are multiplied, and back.
#![tactic(auto)]

ghost use Rattle.std.specs.Prelude.{◌≡◌, ◌*◌, ◌≤◌, length};
ghost use Rattle.fermat.specs.Field.{modulus, transform_length};
ghost use Rattle.passes.specs.Butterfly.{AtMost};
ghost use Rattle.passes.specs.Halving.{word};
ghost use Rattle.spectrum.specs.Tile.{Spectrum, Recovered};
ghost use Rattle.spectrum.specs.Corner.{corner_start, corner, Cornered};
ghost use Rattle.spectrum.specs.Product.{factor_most};

use bounds::settled;
use corner::forward_corner;
use fermat::field::{bits_of, halvings_of, transform_length};
use passes::{Forward, Inverse, Residues};
use product::{offset_residues, settle_in};
use tile::transform_tile;
use value::offset_of;

pub mod bounds;
mod corner;
pub mod product;
mod tile;
pub mod value;

pub fn tile_spectrum(words: &mut [u64], field: usize)
    requires field_bound { (field ≤ 5) × (length words.old ≡ transform_length field * transform_length field) }
    requires at_most { AtMost (2 * modulus field) words.old }
    ensures spectrum { Spectrum field (λ r j. word (transform_length field) r j words.old) 0 words.new }
    ensures at_most_2 { AtMost (factor_most field) words.new }
{
    transform_tile::<Forward>(words, transform_length(field), Residues::of_field(field));
}

// The same for a corner, which stands in the last words.
pub fn corner_spectrum(words: &mut [u64], k: usize, field: usize)
    requires { (field ≤ 5) × Cornered (transform_length field) k (2 * modulus field) words.old }
    ensures spectrum { Spectrum field (corner k (corner_start (transform_length field) k) words.old) 0 words.new }
    ensures at_most { AtMost (factor_most field) words.new }
{
    forward_corner(words, transform_length(field), k, Residues::of_field(field));
}

// From the transform of a tile, such as a sum of products of transforms, back to the tile: each of its words as a residue, with half of
// 2^bits added.
pub fn recover_tile(words: &mut [u64], field: usize)
    requires { (4 ≤ field) × (field ≤ 5) × (length words.old ≡ transform_length field * transform_length field) }
    ensures { Recovered field words.old words.new }
{
    settle_in(field, words);
    transform_tile::<Inverse>(words, transform_length(field), settled(field));
    offset_residues(
        words,
        bits_of(field),
        2 * halvings_of(field),
        offset_of(field),
    );
}
