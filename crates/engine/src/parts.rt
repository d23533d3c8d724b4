// Part after part, by either method. A match over an enum of two: a caller picks the method for each call.
ghost use Rattle.std.specs.Prelude.{◌≡◌, ◌≤◌, length};
ghost use Rattle.algebra.specs.Places.{Changed};
ghost use Rattle.checks.specs.Callable.{Callable};
ghost use Rattle.checks.specs.Engine.{engine_of};
ghost use Rattle.engine.specs.Call.{finished};

use crate::strips::finish_strips;
use crate::tiles::finish_tiles;
use checks::method::Method;
use layer::shape::Layer;

// Finishes the parts from `from` up to `to`. The words of scratch that the method uses are left as they come.
pub(crate) fn finish_parts(
    method: Method,
    layer: Layer,
    from: usize,
    to: usize,
    map: &[i16],
    kernel: &[i16],
    output: &mut [i32],
    scratch: &mut [u64],
)
    requires callable { Callable (engine_of method) layer map.now kernel.now (length output.old) (length scratch.old) }
    requires from_le_to { (from ≤ to) × (to ≤ (engine_of method).total layer) }
    ensures output_after { output.new ≡ finished (engine_of method) layer map.now kernel.now from to output.old }
    ensures changed { Changed 0 0 ((engine_of method).words layer) scratch.old scratch.new }
{
    match method {
        Method::Tiles => finish_tiles(layer, from, to, map, kernel, output, scratch),
        Method::Strips => finish_strips(layer, from, to, map, kernel, output, scratch),
    }
}
