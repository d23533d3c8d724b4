// The strips of a layer: their length, how many there are, and where one stands.
ghost use Rattle.std.specs.Prelude.{◌≡◌, ◌<◌};
ghost use Rattle.layer.specs.Planned.{InRange, Planned};
ghost use Rattle.layer.specs.Strip.{strip_length, strip_columns, strip_total, strip_channel, strip_row, strip_column};

use crate::place::Place;
use crate::shape::Layer;
use crate::sizes::parts_along;

// L.
pub fn strip_length(layer: Layer) -> usize
    requires { InRange layer }
    ensures { result ≡ strip_length layer }
{
    257 - layer.side
}

// ⌈Q/L⌉, the strips of one output row.
fn strip_columns(layer: Layer) -> usize
    requires { Planned layer }
    ensures { result ≡ strip_columns layer }
{
    parts_along(layer, layer.columns, strip_length(layer))
}

// M × h × ⌈Q/L⌉.
#[tactic(auto, using(crate::specs::StripLaws::strip_columns_high), unfolding(crate::specs::Strip::strip_total))]
pub fn strip_total(layer: Layer) -> usize
    requires { Planned layer }
    ensures { result ≡ strip_total layer }
{
    layer.outputs * layer.rows * strip_columns(layer)
}

// The output channel and the output row of a strip, and its column among the strips of that row.
#[tactic(auto, using(crate::specs::StripLaws::strip_columns_some))]
pub fn strip_place(layer: Layer, strip: usize) -> Place
    requires { Planned layer × (strip < strip_total layer) }
    ensures { (result.channel ≡ strip_channel layer strip) × (result.row ≡ strip_row layer strip) × (result.column ≡ strip_column layer strip) }
{
    let across = strip_columns(layer);
    let line = strip / across;
    Place {
        channel: line / layer.rows,
        row: line % layer.rows,
        column: strip % across,
    }
}
