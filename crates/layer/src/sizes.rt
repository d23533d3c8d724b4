// The counts of a layer's values, the sizes of its full output and of its tiles. What they ask is what the rules 1 to 9 and 23 give.
ghost use Rattle.std.specs.Prelude.{◌≡◌, ◌+◌, ◌*◌, ◌≤◌};
ghost use Rattle.base.specs.Number.{ceiling_div};
ghost use Rattle.layer.specs.Planned.{InRange, Outputs, Planned, Wanted};
ghost use Rattle.layer.specs.Shape.{map_count, kernel_count, output_count, full_size, scratch_words, tile_side, grid_step, span, tile_total};

use crate::shape::{Kind, Layer};
use fermat::field;

// Map values: C.H.W.
pub fn map_count(layer: Layer) -> usize
    requires { InRange layer }
    ensures { result ≡ map_count layer }
{
    layer.inputs * layer.height * layer.width
}

// Weights: M.C.K². The side of two kernels joined is up to 21.
pub fn kernel_count(layer: Layer) -> usize
    requires { (layer.inputs ≤ 64) × (layer.outputs ≤ 64) × (layer.side ≤ 21) }
    ensures { result ≡ kernel_count layer }
{
    layer.outputs * layer.inputs * (layer.side * layer.side)
}

// Outputs that are kept: M·h·w.
pub fn output_count(layer: Layer) -> usize
    requires { Planned layer }
    ensures { result ≡ output_count layer }
{
    layer.outputs * layer.rows * layer.columns
}

// E of a map's height and the rows added, F of its width and the columns added.
#[tactic(auto, using(crate::specs::PlannedLaws::tconv_fits), unfolding(crate::specs::Shape::conv_size, crate::specs::Shape::tconv_size))]
pub fn full_size(layer: Layer, extent: usize, added: usize) -> usize
    requires { Outputs layer extent added }
    ensures { result ≡ full_size layer extent added }
{
    match layer.kind_of() {
        Kind::Conv => (extent + 2 * layer.padding - layer.side) / layer.stride + 1,
        Kind::Tconv => (extent - 1) * layer.stride + layer.side + added - 2 * layer.padding,
    }
}

// 3N².
pub fn scratch_words(layer: Layer) -> usize
    requires { InRange layer }
    ensures { result ≡ scratch_words layer }
{
    let n = field::transform_length(layer.field);
    3 * (n * n)
}

// L.
#[tactic(auto, using(crate::specs::TileSizeLaws::length_low))]
pub fn tile_side(layer: Layer) -> usize
    requires { InRange layer }
    ensures { result ≡ tile_side layer }
{
    field::transform_length(layer.field) - layer.side + 1
}

// The stride-1 grid rows from one wanted row to the next.
pub fn grid_step(layer: Layer) -> usize
    ensures { result ≡ grid_step layer }
{
    match layer.kind_of() {
        Kind::Conv => layer.stride,
        Kind::Tconv => 1,
    }
}

// R of the rows kept, Q of the columns kept.
fn span_of(layer: Layer, count: usize) -> usize
    requires { Wanted layer count }
    ensures { result ≡ span layer count }
{
    match layer.kind_of() {
        Kind::Conv => (count - 1) * layer.stride + 1,
        Kind::Tconv => count,
    }
}

// Parts of that length along the rows kept, or along the columns kept.
#[tactic(auto, using(base::specs::NumberLaws::div_ceil_is))]
pub fn parts_along(layer: Layer, count: usize, length: usize) -> usize
    requires { Wanted layer count × (1 ≤ length) × (length ≤ 256) }
    ensures { result ≡ ceiling_div (span layer count) length }
{
    span_of(layer, count).div_ceil(length)
}

// Tile rows of the rows kept, tile columns of the columns kept.
pub fn tiles_along(layer: Layer, count: usize) -> usize
    requires { Wanted layer count }
    ensures { result ≡ ceiling_div (span layer count) (tile_side layer) }
{
    parts_along(layer, count, tile_side(layer))
}

// M × ⌈R/L⌉ × ⌈Q/L⌉.
#[tactic(auto, using(crate::specs::TileSizeLaws::tile_lines_high), unfolding(crate::specs::Shape::tile_total))]
pub fn tile_total(layer: Layer) -> usize
    requires { Planned layer }
    ensures { result ≡ tile_total layer }
{
    layer.outputs * tiles_along(layer, layer.rows) * tiles_along(layer, layer.columns)
}
