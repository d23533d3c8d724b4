// The values of the map, written in stored order: at each place of the output's window the peak with the sign of the weight that meets it, 0
// elsewhere.
ghost use Rattle.std.specs.Prelude.{◌≡◌, ℕ, ◌+◌, ◌*◌, ◌<◌, ◌≤◌, pos, length, get_or};
ghost use Rattle.layer.specs.Direct.{within};
ghost use Rattle.layer.specs.Shape.{map_count};
ghost use Rattle.worst.specs.Worst.{value_for, weight_met, value_at, map_for};
ghost use Rattle.worst.specs.Accepted.{MadeFor};

use crate::output::Output;
use layer::shape::Layer;
use std::cmp::Ordering;

// The value for a weight.
fn value_for(weight: i16, peak: usize) -> i16
    requires { peak ≤ 32767 }
    ensures { result ≡ value_for peak weight }
{
    let high = peak as i16;
    match weight.cmp(&0) {
        Ordering::Greater => high,
        Ordering::Less => -high,
        Ordering::Equal => 0,
    }
}

// Whether u − p is from 0 to n − 1.
fn is_within(p: usize, n: usize, u: usize) -> bool
    ensures { result ≡ within p n u }
{
    p <= u && u - p < n
}

// The weight that meets row i, column j of map channel c in the output's sum; outside the window there is none, which counts as a weight of 0.
fn weight_met(layer: Layer, kernel: &[i16], output: Output, c: usize, i: usize, j: usize) -> i16
    requires { MadeFor layer kernel.now output × (c < layer.inputs) × (i < layer.height) × (j < layer.width) }
    ensures { result ≡ weight_met layer kernel.now output c i j }
{
    let side = layer.side;
    let top = output.row * layer.stride;
    let left = output.column * layer.stride;
    let row = i + layer.padding;
    let column = j + layer.padding;
    let in_rows = is_within(top, side, row);
    let in_columns = is_within(left, side, column);
    if in_rows & in_columns {
        let plane = output.channel * layer.inputs + c;
        let line = plane * side + (row - top);
        return kernel[line * side + (column - left)];
    }
    0
}

// One row of the map. Rows are counted over all channels: row `line` is row `line` % H of map channel `line` / H.
fn write_row(layer: Layer, kernel: &[i16], output: Output, line: usize, row: &mut [i16])
    requires { MadeFor layer kernel.now output × (line < layer.inputs * layer.height) × (length row.old ≡ layer.width) }
    ensures len { length row.new ≡ length row.old }
    ensures values { (j : ℕ) → j < layer.width → get_or row.new j (pos 0) ≡ value_at layer kernel.now output (line * layer.width + j) }
{
    let c = line / layer.height;
    let i = line % layer.height;
    for (j, value) in row.iter_mut().enumerate() {
        *value = value_for(weight_met(layer, kernel, output, c, i, j), layer.peak);
    }
}

// The whole map, row by row.
pub(crate) fn write_map(layer: Layer, kernel: &[i16], output: Output, map: &mut [i16])
    requires { MadeFor layer kernel.now output × (length map.old ≡ map_count layer) }
    ensures { map.new ≡ map_for layer kernel.now output }
{
    let width = layer.width;
    for line in 0..layer.inputs * layer.height {
        let start = line * width;
        write_row(layer, kernel, output, line, &mut map[start..start + width]);
    }
}
