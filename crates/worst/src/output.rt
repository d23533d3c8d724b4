// The output that the map is made for: the first output channel with the greatest load, and the first window that lies whole inside the map.
ghost use Rattle.std.specs.Prelude.{◌≡◌};
ghost use Rattle.load.specs.Weights.{Weighted};
ghost use Rattle.worst.specs.Worst.{worst_channel, worst_output};
ghost use Rattle.worst.specs.Accepted.{Accepted};

use crate::window::first_inside;
use layer::shape::Layer;
use load::size_total;

// One place of the full output.
#[derive(Clone, Copy)]
pub struct Output {
    pub channel: usize, // m
    pub row: usize, // e
    pub column: usize, // f
}

// The first output channel with the greatest load. In CONV the load is the peak times the sum of all sizes.
fn worst_channel(layer: Layer, kernel: &[i16]) -> usize
    requires { Weighted layer kernel.now × (layer.kind ≡ 0) }
    ensures { result ≡ worst_channel layer kernel.now }
{
    let peak = layer.peak as u64;
    let mut most: u64 = 0;
    let mut channel = 0;
    for m in 0..layer.outputs {
        let load = peak * size_total(layer, kernel, m);
        if most < load {
            most = load;
            channel = m;
        }
    }
    channel
}

// The output of that channel at that window.
pub(crate) fn worst_output(layer: Layer, kernel: &[i16]) -> Output
    requires { Accepted layer kernel.now }
    ensures { result ≡ worst_output layer kernel.now }
{
    let channel = worst_channel(layer, kernel);
    let row = layer.top + first_inside(layer, layer.height, layer.top, layer.rows);
    let column = layer.left + first_inside(layer, layer.width, layer.left, layer.columns);
    Output {
        channel,
        row,
        column,
    }
}
