// The methods by which a layer's parts are finished, and the three figures of the checks that they differ in: the last field that is taken,
// the words of scratch and the total of parts.
ghost use Rattle.std.specs.Prelude.{◌≡◌};
ghost use Rattle.layer.specs.Planned.{InRange, Planned};
ghost use Rattle.checks.specs.Engine.{engine_of};

use layer::shape::Layer;
use layer::{sizes, strips};

#[derive(Clone, Copy, Debug, PartialEq, Eq)]
pub enum Method {
    Tiles,
    Strips,
}

pub fn last_field(method: Method) -> usize
    ensures { result ≡ (engine_of method).last_field }
{
    match method {
        Method::Tiles => 5,
        Method::Strips => 4,
    }
}

pub fn scratch_words(method: Method, layer: Layer) -> usize
    requires { InRange layer }
    ensures { result ≡ (engine_of method).words layer }
{
    match method {
        Method::Tiles => sizes::scratch_words(layer),
        Method::Strips => 768,
    }
}

pub fn part_total(method: Method, layer: Layer) -> usize
    requires { Planned layer }
    ensures { result ≡ (engine_of method).total layer }
{
    match method {
        Method::Tiles => sizes::tile_total(layer),
        Method::Strips => strips::strip_total(layer),
    }
}
