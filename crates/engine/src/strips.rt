// Strip after strip. It stands beside `finish_tiles`: a strip is lent a table of powers, and a tile may keep the kernel of the tile before.
ghost use Rattle.std.specs.Prelude.{◌≡◌, ◌≤◌, length};
ghost use Rattle.algebra.specs.Places.{Changed};
ghost use Rattle.layer.specs.Strip.{strip_words, strip_total};
ghost use Rattle.checks.specs.Callable.{Callable};
ghost use Rattle.checks.specs.Engine.{strip_engine};
ghost use Rattle.engine.specs.Call.{finished};

use layer::shape::Layer;
use row::table::PowerTable;
use strip::finish::finish_strip;

// Finishes the strips from `from` up to `to`. The first 768 words of scratch are left as they come. The table of powers is taken once.
pub(crate) fn finish_strips(
    layer: Layer,
    from: usize,
    to: usize,
    map: &[i16],
    kernel: &[i16],
    output: &mut [i32],
    scratch: &mut [u64],
)
    requires callable { Callable strip_engine layer map.now kernel.now (length output.old) (length scratch.old) }
    requires from_le_to { (from ≤ to) × (to ≤ strip_total layer) }
    ensures output_after { output.new ≡ finished strip_engine layer map.now kernel.now from to output.old }
    ensures changed { Changed 0 0 strip_words scratch.old scratch.new }
{
    let powers = PowerTable::new();
    for strip in from..to {
        finish_strip(layer, strip, &powers, map, kernel, output, scratch);
    }
}
