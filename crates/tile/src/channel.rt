// One map channel of a tile: the transform of the kernel's plane and that of the window, and their product added to the sum.
ghost use Rattle.std.specs.Prelude.{◌≡◌, true, ℕ, ◌+◌, ◌*◌, ◌≤◌, ◌<◌, length, get_or};
ghost use Rattle.spectrum.specs.Product.{product_most};
ghost use Rattle.layer.specs.Planned.{InRange};
ghost use Rattle.tile.specs.Channel.{area, KernelReady, KernelKept, WindowReady, LentLengths, OriginInRange, Adds};

use crate::origin::Origin;
use fermat::field;
use layer::planes::planes_to;
use layer::shape::Layer;
use spectrum::product::accumulate_in;
use spectrum::{corner_spectrum, tile_spectrum};
use window::kernel::load_kernel;
use window::load_window;

// The transform of a plane of the kernel: the plane is loaded into the last words, and its transform takes the place of all.
fn kernel_spectrum(words: &mut [u64], layer: Layer, kernel: &[i16], plane: usize)
    requires in_range { InRange layer × (length words.old ≡ area layer) }
    requires kernel_len { (length kernel.now ≡ layer.outputs * layer.inputs * (layer.side * layer.side)) × (plane < layer.outputs * layer.inputs) }
    ensures { KernelReady layer kernel.now plane 0 words.new }
{
    let n = field::transform_length(layer.field);
    let from = n * n - n * layer.side;
    load_kernel(&mut words[from..], layer, kernel, plane);
    corner_spectrum(words, layer.side, layer.field);
}

// The same, but where it is kept: then it stands there already.
fn ready_kernel(words: &mut [u64], layer: Layer, kernel: &[i16], plane: usize, kept: bool)
    requires in_range { InRange layer × (length words.old ≡ area layer) }
    requires kernel_len { (length kernel.now ≡ layer.outputs * layer.inputs * (layer.side * layer.side)) × (plane < layer.outputs * layer.inputs) }
    requires kernel_ready { kept ≡ true → KernelReady layer kernel.now plane 0 words.old }
    ensures { KernelReady layer kernel.now plane 0 words.new }
{
    if !kept {
        kernel_spectrum(words, layer, kernel, plane);
    }
}

// The transform of the window of map channel c that begins at that row and column.
fn window_spectrum(
    words: &mut [u64],
    layer: Layer,
    map: &[i16],
    c: usize,
    row: usize,
    column: usize,
)
    requires in_range { InRange layer × (length words.old ≡ area layer) }
    requires map_len { (length map.now ≡ layer.inputs * layer.height * layer.width) × (c < layer.inputs) × (row ≤ 10000) × (column ≤ 10000) }
    ensures { WindowReady layer map.now c row column words.new }
{
    load_window(words, layer, map, c, row, column);
    tile_spectrum(words, layer.field);
}

// Map channel c is added to the sum, which is that of the channels before. The kernel and the window are each lent a part of scratch alone.
// The transform of the kernel's plane is left in its part; where it is kept from an earlier tile, it is not made again.
pub(crate) fn add_channel(
    scratch: &mut [u64],
    layer: Layer,
    origin: Origin,
    map: &[i16],
    kernel: &[i16],
    c: usize,
    kept: bool,
)
    requires lent_lengths { LentLengths layer map.now kernel.now scratch.old × OriginInRange layer origin × (c < layer.inputs) }
    requires by_index { (i : ℕ) → i < area layer → get_or scratch.old i 0 ≤ c * product_most layer.field }
    requires kernel_kept { kept ≡ true → KernelKept layer kernel.now origin.channel c scratch.old }
    ensures adds { Adds layer map.now kernel.now origin c scratch.old scratch.new }
    ensures kernel_kept_2 { KernelKept layer kernel.now origin.channel c scratch.new }
{
    let n = field::transform_length(layer.field);
    let area = n * n;
    let window = 2 * area;
    let end = 3 * area;
    let planes = planes_to(layer, origin.channel);
    let plane = planes.first + c * planes.step;
    ready_kernel(&mut scratch[area..window], layer, kernel, plane, kept);
    window_spectrum(
        &mut scratch[window..end],
        layer,
        map,
        c,
        origin.row,
        origin.column,
    );
    accumulate_in(layer.field, scratch, area);
}
