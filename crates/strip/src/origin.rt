// Where a strip reads: one output row's windows begin at one row of the grid, and all their rows at one column.
ghost use Rattle.std.specs.Prelude.{◌<◌};
ghost use Rattle.layer.specs.Planned.{Planned};
ghost use Rattle.layer.specs.Strip.{strip_total};
ghost use Rattle.strip.specs.Origin.{StripOriginAt, StripOriginInRange};

use layer::place::grid_start;
use layer::shape::Layer;
use layer::strips::{strip_length, strip_place};
use window::shown::{Shown, shown_of};

// The output channel of a strip, the row and the column of the stride-1 grid that its windows begin at, and what their rows show of a map row.
#[derive(Clone, Copy)]
pub struct StripOrigin {
    pub channel: usize,
    pub row: usize,
    pub column: usize,
    pub shown: Shown,
}

pub(crate) fn strip_origin(layer: Layer, strip: usize) -> StripOrigin
    requires { Planned layer × (strip < strip_total layer) }
    ensures { StripOriginAt layer strip result × StripOriginInRange layer result }
{
    let place = strip_place(layer, strip);
    let length = strip_length(layer);
    let row = grid_start(layer, layer.top + place.row, 0, length);
    let column = grid_start(layer, layer.left, place.column, length);
    let shown = shown_of(layer, column, 256);
    StripOrigin {
        channel: place.channel,
        row: row,
        column: column,
        shown: shown,
    }
}
