// A finished strip is stored: its wanted places are written, and no others.
ghost use Rattle.std.specs.Prelude.{◌≡◌, ℕ, ◌*◌, ◌≤◌, ◌<◌, pos, length};
ghost use Rattle.algebra.specs.Places.{Written};
ghost use Rattle.spectrum.specs.Value.{offset_of, Storable};
ghost use Rattle.layer.specs.Planned.{Planned};
ghost use Rattle.layer.specs.Shape.{grid_step};
ghost use Rattle.layer.specs.Strip.{strip_total, strip_of};
ghost use Rattle.store.specs.Held.{RowStorable, RowStored};
ghost use Rattle.strip.specs.Stored.{strip_word, strip_stored_at};

use layer::shape::Layer;
use layer::sizes::grid_step;
use layer::strips::{strip_length, strip_place};
use spectrum::value::offset_of;
use store::{held_in, store_row};

// Stores the columns that the strip holds: the words stand a grid step apart.
fn store_columns(output: &mut [i32], words: &[u64], layer: Layer)
    requires { Planned layer × RowStorable (offset_of layer.field) 0 (grid_step layer) (length output.old) words.now }
    ensures { RowStored (offset_of layer.field) 0 0 (grid_step layer) (length output.old) words.now output.old output.new }
{
    let offset = offset_of(layer.field);
    match grid_step(layer) {
        1 => store_row(output, words, 1, offset),
        2 => store_row(output, words, 2, offset),
        3 => store_row(output, words, 3, offset),
        _ => store_row(output, words, 4, offset),
    }
}

pub(crate) fn store_strip(output: &mut [i32], words: &[u64], layer: Layer, strip: usize)
    requires planned { Planned layer × (length output.old ≡ layer.outputs * layer.rows * layer.columns) × (strip < strip_total layer) × (256 ≤ length words.now) }
    requires by_index { (p : ℕ) → p < length output.old → strip_of layer p ≡ strip → Storable (offset_of layer.field) (strip_word layer strip p words.now) }
    ensures { Written (pos 0) (λ p. strip_of layer p ≡ strip) (strip_stored_at layer strip words.now) output.old output.new }
{
    let place = strip_place(layer, strip);
    let columns = held_in(layer, strip_length(layer), place.column, layer.columns);
    let at = (place.channel * layer.rows + place.row) * layer.columns + columns.first;
    let end = at + columns.count;
    store_columns(&mut output[at..end], &words[columns.word..], layer);
}
