// Levels for the screen: each output is divided by 2^shift to the nearest whole number, halves going away from zero, and clamped.
// `levels` checks the shift, the bound and the two lengths first, and leaves refused levels as they were.
#![tactic(auto)]

ghost use Rattle.std.specs.Prelude.{◌≡◌, ◌≤◌, length};
ghost use Rattle.base.specs.Refusals.{code_of};
ghost use Rattle.levels.specs.Answer.{levels_code, levels_of, levels_left};

use base::rules::{Refusal, code_of, require};

mod value;

// The rules of a call: the shift, then the bound B, then the room for as many levels as outputs.
#[tactic(auto, unfolding(base::specs::Refusals::required, base::specs::Rules::inside, crate::specs::Answer::levels_code))]
fn check_levels(shift: usize, bound: usize, count: usize, room: usize) -> Result<(), Refusal>
    ensures { code_of result ≡ levels_code shift bound count room }
{
    require(Refusal::Levels, shift <= 31)?;
    require(Refusal::Levels, (1..=32767).contains(&bound))?;
    require(Refusal::Levels, room == count)
}

// Writes the level of each output. No turn depends on another, and every `if` only chooses between two numbers, so that the loop is
// compiled to many values at a time. The outputs go by index: of what is written through a `zip` of both, a proof knows nothing.
fn write_levels(shift: usize, bound: usize, outputs: &[i32], levels: &mut [i16])
    requires { (shift ≤ 31) × (bound ≤ 32767) × (length levels.old ≡ length outputs.now) }
    ensures { levels.new ≡ levels_of shift bound outputs.now }
{
    let bits = shift as u32;
    let most = bound as u32;
    let rounding = (1 << bits) / 2;
    for (i, level) in levels.iter_mut().enumerate() {
        *level = value::level_of(outputs[i], bits, rounding, most);
    }
}

// The levels of the outputs, with shift 0 to 31 and B 1 to 32,767, into as many places. Refused levels are left as they were.
pub fn levels(shift: usize, bound: usize, outputs: &[i32], levels: &mut [i16]) -> usize
    ensures value { result ≡ levels_code shift bound (length outputs.now) (length levels.old) }
    ensures levels_after { levels.new ≡ levels_left shift bound outputs.now levels.old }
{
    let checked = check_levels(shift, bound, outputs.len(), levels.len());
    if checked.is_ok() {
        write_levels(shift, bound, outputs, levels);
    }
    code_of(checked)
}
