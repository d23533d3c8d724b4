// How many output values lie in parts of a layer, tiles or strips, by their rows and columns: no place is visited.
#![tactic(auto)]

ghost use Rattle.std.specs.Prelude.{◌≡◌, ◌+◌, ◌*◌, ◌-◌, ◌≤◌};
ghost use Rattle.layer.specs.Planned.{Planned};
ghost use Rattle.checks.specs.Engine.{engine_of};
ghost use Rattle.values.specs.Values.{values_in};

use checks::method::Method;
use layer::shape::Layer;
use layer::sizes::parts_along;
use part::{held_before, part_height, part_width};

mod part;

// All values of the first `planes` planes and of `above` rows of the next, and the first `left` of each row from there up to `through`.
fn values_up_to(layer: Layer, planes: usize, above: usize, through: usize, left: usize) -> usize
    requires { Planned layer × (planes ≤ layer.outputs) × (above ≤ through) × (through ≤ layer.rows) × (left ≤ layer.columns) }
    ensures { result ≡ (planes * layer.rows + above) * layer.columns + (through - above) * left }
{
    (planes * layer.rows + above) * layer.columns + (through - above) * left
}

// The values in the parts before `part`: those of the channels before; in its channel, those of the rows that lie in rows of parts before; and in
// its row of parts, those of the columns before.
fn values_before(method: Method, layer: Layer, part: usize) -> usize
    requires { Planned layer × (part ≤ (engine_of method).total layer) }
    ensures { result ≡ values_in (engine_of method) layer 0 part }
{
    let height = part_height(method, layer);
    let width = part_width(method, layer);
    let down = parts_along(layer, layer.rows, height);
    let across = parts_along(layer, layer.columns, width);
    let line = part / across;
    let row = line % down;
    let above = held_before(layer, layer.rows, height, row);
    let through = held_before(layer, layer.rows, height, row + 1);
    let left = held_before(layer, layer.columns, width, part % across);
    values_up_to(layer, line / down, above, through, left)
}

// The values in the parts from `from` up to `to`.
#[tactic(auto, using(crate::specs::ValuesLaws::values_then, crate::specs::ValuesLaws::values_grow))]
pub fn values_in(method: Method, layer: Layer, from: usize, to: usize) -> usize
    requires { Planned layer × (from ≤ to) × (to ≤ (engine_of method).total layer) }
    ensures { result ≡ values_in (engine_of method) layer from to }
{
    values_before(method, layer, to) - values_before(method, layer, from)
}
