// Whole buffers set to 0.
ghost use Rattle.std.specs.Prelude.{◌≡◌, pos};
ghost use Rattle.sequence.specs.Sequenced.{zeros};

// Both work maps, the output buffer and scratch, every word of them.
pub(crate) fn clear_all(
    first: &mut [i16],
    second: &mut [i16],
    output: &mut [i32],
    scratch: &mut [u64],
)
    ensures first_after { (first.new ≡ zeros (pos 0) first.old) × (second.new ≡ zeros (pos 0) second.old) }
    ensures output_after { (output.new ≡ zeros (pos 0) output.old) × (scratch.new ≡ zeros 0 scratch.old) }
{
    first.fill(0);
    second.fill(0);
    output.fill(0);
    scratch.fill(0);
}
