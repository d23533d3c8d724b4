// How far a part reaches on the stride-1 grid, and the output rows or columns that lie in the parts before one of them.
ghost use Rattle.std.specs.Prelude.{◌≡◌, ◌≤◌};
ghost use Rattle.layer.specs.Planned.{InRange};
ghost use Rattle.values.specs.PartSize.{part_height, part_width, held_before};

use checks::method::Method;
use layer::shape::Layer;
use layer::{sizes, strips};

// L rows of a tile, one grid step of a strip.
pub(crate) fn part_height(method: Method, layer: Layer) -> usize
    requires { InRange layer }
    ensures { result ≡ part_height method layer }
{
    match method {
        Method::Tiles => sizes::tile_side(layer),
        Method::Strips => sizes::grid_step(layer),
    }
}

// L of a tile or of a strip.
pub(crate) fn part_width(method: Method, layer: Layer) -> usize
    requires { InRange layer }
    ensures { result ≡ part_width method layer }
{
    match method {
        Method::Tiles => sizes::tile_side(layer),
        Method::Strips => strips::strip_length(layer),
    }
}

// Of `count` rows or columns, those in the parts before `part` along them: those that begin on the grid before the part does.
#[tactic(auto, using(crate::specs::PartSizeLaws::held_steps))]
pub(crate) fn held_before(layer: Layer, count: usize, length: usize, part: usize) -> usize
    requires { InRange layer × (1 ≤ length) × (length ≤ 256) × (part ≤ 8484) }
    ensures { result ≡ held_before layer count length part }
{
    count.min((part * length).div_ceil(sizes::grid_step(layer)))
}
