// Where a part of a layer stands: a tile, or a strip.
ghost use Rattle.std.specs.Prelude.{◌≡◌, ◌+◌, ◌*◌, ◌≤◌, ◌<◌};
ghost use Rattle.layer.specs.Planned.{InRange, Planned};
ghost use Rattle.layer.specs.Shape.{grid_step, tile_total, tile_channel, tile_row, tile_column};

use crate::shape::Layer;
use crate::sizes;

#[derive(Clone, Copy)]
pub struct Place {
    pub channel: usize, // of the output
    pub row: usize, // of tiles, or the output row of a strip
    pub column: usize, // of tiles, or of strips
}

#[tactic(auto, using(crate::specs::TileLaws::tile_rows_some, crate::specs::TileLaws::tile_columns_some))]
pub fn place_of(layer: Layer, tile: usize) -> Place
    requires { Planned layer × (tile < tile_total layer) }
    ensures { (result.channel ≡ tile_channel layer tile) × (result.row ≡ tile_row layer tile) × (result.column ≡ tile_column layer tile) }
{
    let down = sizes::tiles_along(layer, layer.rows);
    let across = sizes::tiles_along(layer, layer.columns);
    let line = tile / across;
    Place {
        channel: line / down,
        row: line % down,
        column: tile % across,
    }
}

// The row or the column of the stride-1 grid that a part begins at: the first output, and the parts before, each of that many places.
pub fn grid_start(layer: Layer, first: usize, before: usize, length: usize) -> usize
    requires { InRange layer × (first ≤ 2058) × (before ≤ 8484) × (length ≤ 256) }
    ensures { result ≡ first * grid_step layer + before * length }
{
    first * sizes::grid_step(layer) + before * length
}
