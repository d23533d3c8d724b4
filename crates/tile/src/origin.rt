// Where the windows of a tile begin.
ghost use Rattle.std.specs.Prelude.{◌≡◌, ◌<◌};
ghost use Rattle.layer.specs.Planned.{Planned};
ghost use Rattle.layer.specs.Shape.{tile_total, tile_channel};
ghost use Rattle.tile.specs.Start.{first_row, first_column};
ghost use Rattle.tile.specs.Channel.{OriginInRange};

use layer::shape::Layer;
use layer::{place, sizes};

// The output channel of a tile, and the row and the column of the stride-1 grid that its windows begin at.
#[derive(Clone, Copy)]
pub struct Origin {
    pub channel: usize,
    pub row: usize,
    pub column: usize,
}

pub(crate) fn origin_of(layer: Layer, tile: usize) -> Origin
    requires { Planned layer × (tile < tile_total layer) }
    ensures channel_value { (result.channel ≡ tile_channel layer tile) × (result.row ≡ first_row layer tile) × (result.column ≡ first_column layer tile) }
    ensures origin_in_range { OriginInRange layer result }
{
    let place = place::place_of(layer, tile);
    let side = sizes::tile_side(layer);
    Origin {
        channel: place.channel,
        row: place::grid_start(layer, layer.top, place.row, side),
        column: place::grid_start(layer, layer.left, place.column, side),
    }
}
