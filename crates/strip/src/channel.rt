// One map channel of a strip: for each kernel row that meets a map row the transforms of both rows, and their products added to the sum. Kernel
// rows that meet no map row are left out: those that meet an inserted row of zeros, or a row outside the map.
ghost use Rattle.std.specs.Prelude.{◌≡◌, ℕ, ◌+◌, ◌-◌, ◌*◌, ◌≤◌, ◌<◌, length, get_or};
ghost use Rattle.spectrum.specs.Product.{settled_most, product_most};
ghost use Rattle.layer.specs.Planned.{InRange};
ghost use Rattle.window.specs.Shows.{Fitting};
ghost use Rattle.window.specs.Window.{turned_index};
ghost use Rattle.strip.specs.Origin.{StripOriginInRange};
ghost use Rattle.strip.specs.Rows.{WeightsReady, LineReady, StripLengths, AddsRow, AddsChannel};

use crate::origin::StripOrigin;
use layer::planes::planes_to;
use layer::shape::{Kind, Layer};
use row::row_spectrum;
use row::table::PowerTable;
use spectrum::product::{F4, accumulate, settle};
use window::kernel::load_weights;
use window::load_line;
use window::shown::{Shown, has_values};

// The row of the kernel that is row a of it turned round in CONV, as stored in TCONV.
fn stored_row(layer: Layer, a: usize) -> usize
    requires { a < layer.side }
    ensures { result ≡ turned_index layer a }
{
    match layer.kind_of() {
        Kind::Conv => layer.side - 1 - a,
        Kind::Tconv => a,
    }
}

// The transform of row a of a plane of the kernel, turned round in CONV.
fn weights_spectrum(
    words: &mut [u64],
    layer: Layer,
    kernel: &[i16],
    plane: usize,
    a: usize,
    powers: &PowerTable,
)
    requires in_range { InRange layer × (layer.field ≡ 4) × (length words.old ≡ 256) × (a < layer.side) }
    requires kernel_len { (length kernel.now ≡ layer.outputs * layer.inputs * (layer.side * layer.side)) × (plane < layer.outputs * layer.inputs) }
    ensures { WeightsReady layer kernel.now plane a words.new }
{
    let from = (plane * layer.side + stored_row(layer, a)) * layer.side;
    let end = from + layer.side;
    load_weights(words, layer, &kernel[from..end]);
    row_spectrum(words, 1, powers);
}

// The transform of what is shown of a map channel in the grid row `line`.
fn line_spectrum(
    words: &mut [u64],
    layer: Layer,
    shown: Shown,
    map: &[i16],
    channel: usize,
    line: usize,
    powers: &PowerTable,
)
    requires in_range { InRange layer × (layer.field ≡ 4) × (length words.old ≡ 256) × Fitting layer 256 shown }
    requires map_len { (length map.now ≡ layer.inputs * layer.height * layer.width) × (channel < layer.inputs) }
    ensures { LineReady layer shown map.now channel line words.new }
{
    load_line(words, layer, shown, map, channel, line);
    row_spectrum(words, 16, powers);
}

// Row a of the kernel's plane for map channel c is added to the sum, with the map row that the grid row `line` holds, which it meets. The two rows
// are each lent a part of scratch.
fn add_row(
    scratch: &mut [u64],
    layer: Layer,
    origin: StripOrigin,
    map: &[i16],
    kernel: &[i16],
    c: usize,
    a: usize,
    line: usize,
    powers: &PowerTable,
)
    requires strip_lengths { StripLengths layer map.now kernel.now scratch.old × StripOriginInRange layer origin × (c < layer.inputs) × (a < layer.side) }
    requires line_value { line ≡ origin.row + (layer.side - 1 - a) }
    requires by_index { (i : ℕ) → i < 256 → get_or scratch.old i 0 ≤ settled_most 4 + a * product_most 4 }
    ensures adds_row { AddsRow layer map.now kernel.now origin c a scratch.old scratch.new }
    ensures by_index_2 { (i : ℕ) → i < 256 → get_or scratch.new i 0 ≤ settled_most 4 + (a + 1) * product_most 4 }
{
    let planes = planes_to(layer, origin.channel);
    let plane = planes.first + c * planes.step;
    let shown = origin.shown;
    weights_spectrum(&mut scratch[256..512], layer, kernel, plane, a, powers);
    line_spectrum(&mut scratch[512..768], layer, shown, map, c, line, powers);
    accumulate::<F4>(scratch, 256);
}

// Map channel c is added to the sum, which is that of the channels before. The sum is brought down after it, so that it stays small whatever C is.
pub(crate) fn add_channel(
    scratch: &mut [u64],
    layer: Layer,
    origin: StripOrigin,
    map: &[i16],
    kernel: &[i16],
    c: usize,
    powers: &PowerTable,
)
    requires strip_lengths { StripLengths layer map.now kernel.now scratch.old × StripOriginInRange layer origin × (c < layer.inputs) }
    requires by_index { (i : ℕ) → i < 256 → get_or scratch.old i 0 ≤ settled_most 4 }
    ensures { AddsChannel layer map.now kernel.now origin c scratch.old scratch.new }
{
    for a in 0..layer.side {
        let line = origin.row + (layer.side - 1 - a);
        if has_values(layer, line) {
            add_row(scratch, layer, origin, map, kernel, c, a, line, powers);
        }
    }
    settle::<F4>(&mut scratch[..256]);
}
