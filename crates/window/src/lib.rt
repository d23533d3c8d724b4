// The window of a map channel as a tile of N by N words, and one row of a window as n words. Of the map only the values that the window shows are
// read.
#![tactic(auto)]

ghost use Rattle.std.specs.Prelude.{◌≡◌, ℕ, ◌+◌, ◌*◌, ◌≤◌, ◌<◌, length};
ghost use Rattle.algebra.specs.Places.{Run};
ghost use Rattle.fermat.specs.Field.{modulus, transform_length};
ghost use Rattle.layer.specs.Planned.{InRange};
ghost use Rattle.window.specs.Loaded.{Loaded, HoldsWindow};
ghost use Rattle.window.specs.Shows.{Inside, Fitting, shown_at, line_at};

use base::words::clear;
use fermat::field;
use layer::shape::Layer;
use shown::{Shown, edge_of, has_values, shown_of};
use spaced::{load_apart, load_spaced};

pub mod kernel;
pub mod shown;
mod spaced;

// What a row shows of a map row, and 0 elsewhere. Values side by side leave only the places before and after them to be cleared.
fn load_row(row: &mut [u64], shown: Shown, line: &[i16], modulus: u64)
    requires inside { Inside (length row.old) shown × (shown.spacing ≤ 4) × ((i : ℕ) → i < shown.count → shown.first + i < length line.now) }
    requires le_modulus { (32768 ≤ modulus) × (modulus ≤ 4294967297) }
    ensures { Loaded modulus (Run 0 (length row.old)) (λ p. shown_at shown 0 line.now shown.first p) row.old row.new }
{
    let first = shown.first.min(line.len());
    let values = &line[first..first + shown.count];
    let n = row.len();
    if shown.spacing == 1 {
        clear(row, 0, shown.begin);
        load_spaced::<1>(&mut row[shown.begin..], values, modulus);
        clear(row, shown.begin + shown.count, n);
    } else {
        clear(row, 0, n);
        load_apart(&mut row[shown.begin..], shown.spacing, values, modulus);
    }
}

// A row of the window: what it shows of a map channel in the grid row `line`.
pub fn load_line(
    row: &mut [u64],
    layer: Layer,
    shown: Shown,
    map: &[i16],
    channel: usize,
    line: usize,
)
    requires in_range { InRange layer × Fitting layer (length row.old) shown }
    requires map_len { (length map.now ≡ layer.inputs * layer.height * layer.width) × (channel < layer.inputs) }
    ensures { Loaded (modulus layer.field) (Run 0 (length row.old)) (λ p. line_at layer shown map.now channel line 0 p) row.old row.new }
{
    if has_values(layer, line) {
        let map_row = (line - edge_of(layer)) / shown.spacing;
        let from = (channel * layer.height + map_row) * layer.width;
        let end = from + layer.width;
        load_row(row, shown, &map[from..end], field::modulus_of(layer.field));
    } else {
        clear(row, 0, row.len());
    }
}

// The window of a map channel whose first place is that row and column of the grid.
pub fn load_window(
    words: &mut [u64],
    layer: Layer,
    map: &[i16],
    channel: usize,
    row: usize,
    column: usize,
)
    requires in_range { InRange layer × (length words.old ≡ transform_length layer.field * transform_length layer.field) × (row ≤ 10000) × (column ≤ 10000) }
    requires map_len { (length map.now ≡ layer.inputs * layer.height * layer.width) × (channel < layer.inputs) }
    ensures { HoldsWindow layer map.now channel row column words.new }
{
    let n = field::transform_length(layer.field);
    let shown = shown_of(layer, column, n);
    for u in 0..n {
        let at = u * n;
        let end = at + n;
        load_line(&mut words[at..end], layer, shown, map, channel, row + u);
    }
}
