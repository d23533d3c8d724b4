// The first window of the crop that lies whole inside the map. Rows and columns are alike: `extent` is H or W, `start` is the crop's top or left,
// `count` its h or w.
ghost use Rattle.std.specs.Prelude.{◌≡◌, ◌&&◌, ◌-◌};
ghost use Rattle.base.specs.Number.{ceiling_div};
ghost use Rattle.layer.specs.Planned.{InRange, Planned};
ghost use Rattle.layer.specs.Shape.{is_conv};
ghost use Rattle.worst.specs.Window.{has_whole, first_inside};
ghost use Rattle.worst.specs.Accepted.{CropInRange};

use layer::shape::{Kind, Layer};

// The first row of the crop whose window does not begin before the map: ⌈P/S⌉ − top, or 0 where that is below 0.
#[tactic(auto, using(base::specs::NumberLaws::div_ceil_is))]
fn first_begun(layer: Layer, start: usize) -> usize
    requires { InRange layer }
    ensures { result ≡ ceiling_div layer.padding layer.stride - start }
{
    layer.padding.div_ceil(layer.stride).saturating_sub(start)
}

// The first row of the crop whose window lies inside the map, `count` where there is none. No window ends before that of an earlier row does, so that
// the first one that does not begin before the map is it, or none is.
pub(crate) fn first_inside(layer: Layer, extent: usize, start: usize, count: usize) -> usize
    requires { CropInRange layer extent start count }
    ensures { result ≡ first_inside layer extent start count }
{
    let row = first_begun(layer, start);
    if count <= row {
        return count;
    }
    let end = (start + row) * layer.stride + layer.side;
    if end <= extent + layer.padding {
        row
    } else {
        count
    }
}

// Whether the layer is CONV and some window of the crop lies whole inside the map.
pub(crate) fn has_window(layer: Layer) -> bool
    requires { Planned layer }
    ensures { result ≡ is_conv layer && has_whole layer }
{
    let row = first_inside(layer, layer.height, layer.top, layer.rows);
    let column = first_inside(layer, layer.width, layer.left, layer.columns);
    match layer.kind_of() {
        Kind::Conv => (row < layer.rows) & (column < layer.columns),
        Kind::Tconv => false,
    }
}
