// A finished tile is stored: its wanted places are written, and no others. The rows and columns of the output that the tile holds are
// computed; then the run of words of each row is stored. Both serve parts of other sides too.
#![tactic(auto)]

ghost use Rattle.std.specs.Prelude.{◌≡◌, ℕ, ◌+◌, ◌*◌, ◌-◌, ◌≤◌, ◌<◌, min, pos, length};
ghost use Rattle.algebra.specs.Places.{Written};
ghost use Rattle.base.specs.Number.{ceiling_div};
ghost use Rattle.fermat.specs.Field.{transform_length};
ghost use Rattle.spectrum.specs.Value.{offset_of, Storable};
ghost use Rattle.layer.specs.Planned.{Planned, Wanted};
ghost use Rattle.layer.specs.Shape.{grid_step, span, tile_total, tile_of};
ghost use Rattle.store.specs.Stored.{word_of, stored_at};
ghost use Rattle.store.specs.Held.{HeldBy, RowStorable, RowStored, WithWords, RowsStorable, RowsStored};

use fermat::field;
use layer::shape::Layer;
use layer::{place, sizes};
use spectrum::value::{offset_of, value_of};

// The rows or the columns of the output that a part of a line holds.
#[derive(Clone, Copy)]
pub struct Held {
    pub first: usize, // the first of them
    pub count: usize,
    pub word: usize, // the row or the column of the part's words that the first one's are in
}

// Stores a row: each place has a word, `step` words after that of the place before. It is compiled into its callers: where the step there is a
// constant, the loop for words that stand side by side is compiled to many words at a time.
#[inline(always)]
pub fn store_row(output: &mut [i32], words: &[u64], step: usize, offset: u64)
    requires { (offset ≤ 2147483648) × RowStorable offset 0 step (length output.old) words.now }
    ensures { RowStored offset 0 0 step (length output.old) words.now output.old output.new }
{
    for (i, place) in output.iter_mut().enumerate() {
        *place = value_of(words[i * step], offset);
    }
}

// The first row or column of the output that lies in this part of a line of parts, or further on.
fn first_held(part: usize, side: usize, step: usize) -> usize
    requires { (part ≤ 8292) × (side ≤ 256) × (1 ≤ step) × (step ≤ 4) }
    ensures { result ≡ ceiling_div (part * side) step }
{
    (part * side).div_ceil(step)
}

// The first row or column after this part, or `count` where there is none.
fn end_held(part: usize, side: usize, step: usize, count: usize) -> usize
    requires { (part < 8292) × (side ≤ 256) × (1 ≤ step) × (step ≤ 4) }
    ensures { result ≡ min (ceiling_div ((part + 1) * side) step) count }
{
    first_held(part + 1, side, step).min(count)
}

// Which of `count` rows or columns of the output lie in this part of a line of parts, each of `side` grid places.
pub fn held_in(layer: Layer, side: usize, part: usize, count: usize) -> Held
    requires { Planned layer × Wanted layer count × (grid_step layer ≤ side) × (side ≤ 256) × (part < ceiling_div (span layer count) side) }
    ensures { HeldBy layer side part count result }
{
    let step = sizes::grid_step(layer);
    let first = first_held(part, side, step);
    let end = end_held(part, side, step, count);
    let count_held = end - first;
    let word = layer.side - 1 + (first * step - part * side);
    Held {
        first: first,
        count: count_held,
        word: word,
    }
}

// Stores the places that the tile holds, where the words of a row stand `STEP` apart. The output is lent from the channel's first row on.
fn store_rows_apart<const STEP: usize>(
    output: &mut [i32],
    words: &[u64],
    layer: Layer,
    rows: Held,
    columns: Held,
)
    requires planned { Planned layer × WithWords layer rows × WithWords layer columns }
    requires columns_in_bounds { ((rows.first + rows.count) * layer.columns ≤ length output.old) × (columns.first + columns.count ≤ layer.columns) }
    requires field_in_bounds { (transform_length layer.field * transform_length layer.field ≤ length words.now) × RowsStorable layer rows columns words.now }
    requires step { STEP ≡ grid_step layer }
    ensures { RowsStored layer rows columns rows.count words.now output.old output.new }
{
    let n = field::transform_length(layer.field);
    let offset = offset_of(layer.field);
    for r in 0..rows.count {
        let at = (rows.first + r) * layer.columns + columns.first;
        let end = at + columns.count;
        let from = (rows.word + r * STEP) * n + columns.word;
        store_row(&mut output[at..end], &words[from..], STEP, offset);
    }
}

// Stores the places that the tile holds.
fn store_rows(output: &mut [i32], words: &[u64], layer: Layer, rows: Held, columns: Held)
    requires planned { Planned layer × WithWords layer rows × WithWords layer columns }
    requires columns_in_bounds { ((rows.first + rows.count) * layer.columns ≤ length output.old) × (columns.first + columns.count ≤ layer.columns) }
    requires field_in_bounds { (transform_length layer.field * transform_length layer.field ≤ length words.now) × RowsStorable layer rows columns words.now }
    ensures { RowsStored layer rows columns rows.count words.now output.old output.new }
{
    match sizes::grid_step(layer) {
        1 => store_rows_apart::<1>(output, words, layer, rows, columns),
        2 => store_rows_apart::<2>(output, words, layer, rows, columns),
        3 => store_rows_apart::<3>(output, words, layer, rows, columns),
        _ => store_rows_apart::<4>(output, words, layer, rows, columns),
    }
}

// Stores tile `tile` of the layer: the value of each output place that it holds. No other place changes.
pub fn store_tile(output: &mut [i32], words: &[u64], layer: Layer, tile: usize)
    requires planned { Planned layer × (length output.old ≡ layer.outputs * layer.rows * layer.columns) × (tile < tile_total layer) }
    requires field_in_bounds { transform_length layer.field * transform_length layer.field ≤ length words.now }
    requires by_index { (p : ℕ) → p < length output.old → tile_of layer p ≡ tile → Storable (offset_of layer.field) (word_of layer tile p words.now) }
    ensures { Written (pos 0) (λ p. tile_of layer p ≡ tile) (stored_at layer tile words.now) output.old output.new }
{
    let place = place::place_of(layer, tile);
    let side = sizes::tile_side(layer);
    let rows = held_in(layer, side, place.row, layer.rows);
    let columns = held_in(layer, side, place.column, layer.columns);
    let from = place.channel * (layer.rows * layer.columns);
    store_rows(&mut output[from..], words, layer, rows, columns);
}
