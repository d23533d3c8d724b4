// A whole tile: the sum of products over all map channels, back to residues, and stored.
ghost use Rattle.std.specs.Prelude.{◌≡◌, true, ℕ, ◌-◌, ◌*◌, ◌<◌, pos, length, get_or};
ghost use Rattle.algebra.specs.Places.{Written, Changed};
ghost use Rattle.layer.specs.Shape.{tile_total, tile_of, tile_channel};
ghost use Rattle.layer.specs.Direct.{direct_at};
ghost use Rattle.checks.specs.Callable.{Callable};
ghost use Rattle.checks.specs.Engine.{tile_engine};
ghost use Rattle.tile.specs.Channel.{area, KernelKept, LentLengths, OriginInRange, Added};

use crate::channel::add_channel;
use crate::origin::{Origin, origin_of};
use base::words::clear;
use fermat::field;
use layer::shape::Layer;
use spectrum::recover_tile;
use store::store_tile;

// All map channels, one after the other. The last one's transform of the kernel is left in scratch.
fn add_channels(
    scratch: &mut [u64],
    layer: Layer,
    origin: Origin,
    map: &[i16],
    kernel: &[i16],
    kept: bool,
)
    requires lent_lengths { LentLengths layer map.now kernel.now scratch.old × OriginInRange layer origin }
    requires by_index { (i : ℕ) → i < area layer → get_or scratch.old i 0 ≡ 0 }
    requires inputs_value { kept ≡ true → (layer.inputs ≡ 1) × KernelKept layer kernel.now origin.channel 0 scratch.old }
    ensures added { Added layer map.now kernel.now origin layer.inputs scratch.old scratch.new }
    ensures kernel_kept { KernelKept layer kernel.now origin.channel (layer.inputs - 1) scratch.new }
{
    for c in 0..layer.inputs {
        add_channel(scratch, layer, origin, map, kernel, c, kept);
    }
}

// Every output that the tile holds becomes its direct sum; every other stays. The first 3N² words of scratch are used and left as they
// come; words beyond them stay. A layer with one map channel needs one transform of the kernel for all tiles of an output channel: it is left
// in scratch, and where it is kept there from the tile before, it is not made again.
pub fn finish_tile(
    layer: Layer,
    tile: usize,
    kept: bool,
    map: &[i16],
    kernel: &[i16],
    output: &mut [i32],
    scratch: &mut [u64],
)
    requires callable { Callable tile_engine layer map.now kernel.now (length output.old) (length scratch.old) × (tile < tile_total layer) }
    requires inputs_value { kept ≡ true → (layer.inputs ≡ 1) × KernelKept layer kernel.now (tile_channel layer tile) 0 scratch.old }
    ensures written { Written (pos 0) (λ p. tile_of layer p ≡ tile) (direct_at layer map.now kernel.now) output.old output.new }
    ensures changed { Changed 0 0 (3 * area layer) scratch.old scratch.new }
    ensures kernel_kept { KernelKept layer kernel.now (tile_channel layer tile) (layer.inputs - 1) scratch.new }
{
    let n = field::transform_length(layer.field);
    let area = n * n;
    let origin = origin_of(layer, tile);
    clear(scratch, 0, area);
    add_channels(scratch, layer, origin, map, kernel, kept);
    let sum = &mut scratch[..area];
    recover_tile(sum, layer.field);
    store_tile(output, sum, layer, tile);
}
