// Whole sequences: one to eight layers, each followed by its levels. Every check comes before the first layer is run.
#![tactic(auto)]

ghost use Rattle.sequence.specs.Sequenced.{Sequenced};

use checks::calls::Checked;
use grow::grow;
use steps::answer::{Room, check_sequence};
use zeros::clear_all;

mod grow;
mod zeros;

// The final buffer `last` holds the map after all steps; the work maps, the output buffer and scratch end all zero. A refusal changes no buffer.
pub fn sequence(
    count: usize,
    steps: &[usize; 144],
    map: &[i16],
    kernels: &[i16],
    first: &mut [i16],
    second: &mut [i16],
    output: &mut [i32],
    scratch: &mut [u64],
    last: &mut [i16],
) -> Checked
    ensures { Sequenced count steps.now map.now kernels.now first.old second.old output.old scratch.old last.old result first.new second.new output.new scratch.new last.new }
{
    let room = Room {
        first: first.len(),
        second: second.len(),
        output: output.len(),
        scratch: scratch.len(),
        last: last.len(),
    };
    let answer = check_sequence(count, steps, map, kernels, room);
    // The number is what C is told (`SequenceReported`).
    if answer.code != 0 {
        return answer;
    }
    grow(count, steps, map, kernels, first, output, scratch, last);
    clear_all(first, second, output, scratch);
    answer
}
