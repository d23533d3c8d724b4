// Tile after tile.
ghost use Rattle.std.specs.Prelude.{◌≡◌, true, ◌-◌, ◌≤◌, ◌<◌, length};
ghost use Rattle.algebra.specs.Places.{Changed};
ghost use Rattle.layer.specs.Planned.{Planned};
ghost use Rattle.layer.specs.Shape.{scratch_words, tile_total, tile_channel};
ghost use Rattle.checks.specs.Callable.{Callable};
ghost use Rattle.checks.specs.Engine.{tile_engine};
ghost use Rattle.engine.specs.Call.{finished};

use layer::place::place_of;
use layer::shape::Layer;
use tile::finish::finish_tile;

// Whether scratch holds the transform of the kernel that the tile needs, as the tile before it left it: that was finished in the same call, it
// is of the same output channel, and the layer has one map channel.
fn keeps_kernel(layer: Layer, from: usize, tile: usize) -> bool
    requires { Planned layer × (tile < tile_total layer) }
    ensures { result ≡ true → (layer.inputs ≡ 1) × (from < tile) × (tile_channel layer tile ≡ tile_channel layer (tile - 1)) }
{
    if layer.inputs != 1 {
        return false;
    }
    if tile <= from {
        return false;
    }
    let before = place_of(layer, tile - 1);
    let place = place_of(layer, tile);
    place.channel == before.channel
}

// Finishes the tiles from `from` up to `to`. The first 3N² words of scratch are left as they come.
pub(crate) fn finish_tiles(
    layer: Layer,
    from: usize,
    to: usize,
    map: &[i16],
    kernel: &[i16],
    output: &mut [i32],
    scratch: &mut [u64],
)
    requires callable { Callable tile_engine layer map.now kernel.now (length output.old) (length scratch.old) }
    requires from_le_to { (from ≤ to) × (to ≤ tile_total layer) }
    ensures output_after { output.new ≡ finished tile_engine layer map.now kernel.now from to output.old }
    ensures changed { Changed 0 0 (scratch_words layer) scratch.old scratch.new }
{
    for tile in from..to {
        let kept = keeps_kernel(layer, from, tile);
        finish_tile(layer, tile, kept, map, kernel, output, scratch);
    }
}
