// A whole strip: the sum of products over all map channels, back to residues, and stored.
ghost use Rattle.std.specs.Prelude.{◌≡◌, ℕ, ◌<◌, pos, length, get_or};
ghost use Rattle.algebra.specs.Places.{Written, Changed};
ghost use Rattle.layer.specs.Strip.{strip_words, strip_total, strip_of};
ghost use Rattle.layer.specs.Direct.{direct_at};
ghost use Rattle.checks.specs.Callable.{Callable};
ghost use Rattle.checks.specs.Engine.{strip_engine};
ghost use Rattle.strip.specs.Origin.{StripOriginInRange};
ghost use Rattle.strip.specs.Rows.{StripLengths, StripAdded};

use crate::channel::add_channel;
use crate::held::store_strip;
use crate::origin::{StripOrigin, strip_origin};
use base::words::clear;
use layer::shape::Layer;
use row::recover_row;
use row::table::PowerTable;

// All map channels, one after the other. A strip has its own loop beside a tile's: it settles the sum after each channel and keeps no kernel, so a
// trait for both would have to carry two invariants.
fn add_channels(
    scratch: &mut [u64],
    layer: Layer,
    origin: StripOrigin,
    map: &[i16],
    kernel: &[i16],
    powers: &PowerTable,
)
    requires strip_lengths { StripLengths layer map.now kernel.now scratch.old × StripOriginInRange layer origin }
    requires by_index { (i : ℕ) → i < 256 → get_or scratch.old i 0 ≡ 0 }
    ensures { StripAdded layer map.now kernel.now origin layer.inputs 0 scratch.old scratch.new }
{
    for c in 0..layer.inputs {
        add_channel(scratch, layer, origin, map, kernel, c, powers);
    }
}

// Every output that the strip holds becomes its direct sum; every other stays. The first 768 words of scratch are used and left as they come;
// words beyond them stay.
pub fn finish_strip(
    layer: Layer,
    strip: usize,
    powers: &PowerTable,
    map: &[i16],
    kernel: &[i16],
    output: &mut [i32],
    scratch: &mut [u64],
)
    requires callable { Callable strip_engine layer map.now kernel.now (length output.old) (length scratch.old) × (strip < strip_total layer) }
    ensures written { Written (pos 0) (λ p. strip_of layer p ≡ strip) (direct_at layer map.now kernel.now) output.old output.new }
    ensures changed { Changed 0 0 strip_words scratch.old scratch.new }
{
    let origin = strip_origin(layer, strip);
    clear(scratch, 0, 256);
    add_channels(scratch, layer, origin, map, kernel, powers);
    let sum = &mut scratch[..256];
    recover_row(sum, powers);
    store_strip(output, sum, layer, strip);
}
