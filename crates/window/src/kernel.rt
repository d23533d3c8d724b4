// Weights as words; and a plane of the kernel as the corner of a tile: N rows of K words, of which the first K hold the weights and the others 0.
ghost use Rattle.std.specs.Prelude.{◌≡◌, ◌*◌, ◌≤◌, ◌<◌, length};
ghost use Rattle.fermat.specs.Field.{transform_length};
ghost use Rattle.layer.specs.Planned.{InRange};
ghost use Rattle.window.specs.Loaded.{HoldsWeights, HoldsKernel};

use crate::spaced::load_spaced;
use base::words::clear;
use fermat::field;
use layer::shape::{Kind, Layer};

// The first words hold the weights, turned round in CONV: the last of them first. The others are 0.
pub fn load_weights(words: &mut [u64], layer: Layer, weights: &[i16])
    requires { InRange layer × (length weights.now ≤ length words.old) }
    ensures { HoldsWeights layer weights.now 0 (length weights.now) words.new }
{
    let count = weights.len();
    load_spaced::<1>(words, weights, field::modulus_of(layer.field));
    match layer.kind_of() {
        Kind::Conv => words[..count].reverse(),
        Kind::Tconv => {}
    }
    clear(words, count, words.len());
}

// The weights of a plane, turned round in CONV: their order is reversed in rows and in columns, so in the plane.
pub fn load_kernel(words: &mut [u64], layer: Layer, kernel: &[i16], plane: usize)
    requires in_range { InRange layer × (length words.old ≡ transform_length layer.field * layer.side) }
    requires kernel_len { (length kernel.now ≡ layer.outputs * layer.inputs * (layer.side * layer.side)) × (plane < layer.outputs * layer.inputs) }
    ensures { HoldsKernel layer kernel.now plane words.new }
{
    let count = layer.side * layer.side;
    let from = plane * count;
    let end = from + count;
    load_weights(words, layer, &kernel[from..end]);
}
