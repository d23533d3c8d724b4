// The checks of a sequence, in the order of its answers: 21 to 22 of the steps and the kernels, then 10, 12 and 13 of the lengths lent, then 15 and 25
// of the first map.
ghost use Rattle.std.specs.Prelude.{◌≡◌};
ghost use Rattle.base.specs.Rules.{first_broken};
ghost use Rattle.base.specs.Refusals.{code_of};
ghost use Rattle.checks.specs.Found.{found};
ghost use Rattle.steps.specs.Steps.{step_at};
ghost use Rattle.steps.specs.Linked.{AllPlanned};
ghost use Rattle.steps.specs.Lent.{most_outputs, most_scratch, buffers_fit, room_rules, sequence_answer};

use crate::check_steps;
use crate::step::step_at;
use base::rules::{Refusal, require};
use checks::calls::{Checked, Refused, check_map_values};
use layer::sizes;

// The lengths of the buffers that a sequence writes.
#[derive(Clone, Copy)]
pub struct Room {
    pub first: usize, // the first work map
    pub second: usize, // the second work map
    pub output: usize,
    pub scratch: usize,
    pub last: usize, // the final buffer
}

// What the layers need.
#[derive(Clone, Copy)]
struct Most {
    outputs: usize, // the outputs of the layer that has the most
    scratch: usize, // the greatest 3N²
}

fn most_of(count: usize, steps: &[usize; 144]) -> Most
    requires { AllPlanned count (step_at steps.now) }
    ensures outputs_value { result.outputs ≡ most_outputs count (step_at steps.now) }
    ensures scratch_value { result.scratch ≡ most_scratch count (step_at steps.now) }
{
    let mut outputs = 0;
    let mut scratch = 0;
    for k in 0..count {
        let step = step_at(steps, k);
        outputs = outputs.max(sizes::output_count(step.layer));
        scratch = scratch.max(sizes::scratch_words(step.layer));
    }
    Most { outputs, scratch }
}

// Whether rule 12 holds, where the last layer has `last` outputs and the greatest `most`.
fn buffers_fit(room: Room, last: usize, most: usize) -> bool
    ensures { result ≡ buffers_fit room last most }
{
    (room.last == last) & (most <= room.first) & (most <= room.second) & (most <= room.output)
}

// The rules 10, 12 and 13. `map` is the length of the first map.
fn check_room(count: usize, steps: &[usize; 144], map: usize, room: Room) -> Result<(), Refusal>
    requires { AllPlanned count (step_at steps.now) }
    ensures { code_of result ≡ first_broken (room_rules count (step_at steps.now) map room) }
{
    let begin = step_at(steps, 0);
    let end = step_at(steps, count - 1);
    let most = most_of(count, steps);
    let fits = buffers_fit(room, sizes::output_count(end.layer), most.outputs);
    require(Refusal::MapLength, map == sizes::map_count(begin.layer))?;
    require(Refusal::OutputLength, fits)?;
    require(Refusal::ScratchLength, most.scratch <= room.scratch)
}

// All rules.
fn check_rules(
    count: usize,
    steps: &[usize; 144],
    map: &[i16],
    kernels: &[i16],
    room: Room,
) -> Result<(), Refused>
    ensures { found result ≡ sequence_answer count (step_at steps.now) map.now kernels.now room }
{
    check_steps(count, steps, kernels)?;
    check_room(count, steps, map.len(), room)?;
    let layer = step_at(steps, 0).layer;
    check_map_values(layer, map)
}

// The first rule that is broken, or 0, and the first value of the first map beyond its peak where that is 15 or 25.
pub fn check_sequence(
    count: usize,
    steps: &[usize; 144],
    map: &[i16],
    kernels: &[i16],
    room: Room,
) -> Checked
    ensures { result ≡ sequence_answer count (step_at steps.now) map.now kernels.now room }
{
    Checked::of(check_rules(count, steps, map, kernels, room))
}
