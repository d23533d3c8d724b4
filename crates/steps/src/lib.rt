// The steps of a sequence, the part of the kernels that each has, and all checks of a sequence: here 21 to 22, which read the steps and the kernels
// alone; in `answer` those of what is lent.
#![tactic(auto)]

ghost use Rattle.std.specs.Prelude.{◌≡◌};
ghost use Rattle.base.specs.Refusals.{code_of};
ghost use Rattle.steps.specs.Steps.{step_at};
ghost use Rattle.steps.specs.Answer.{steps_code};

use base::rules::{Refusal, code_of, require};
use layers::check_layers;
use links::all_follow;

pub mod answer;
pub mod kernels;
mod layers;
mod links;
pub mod step;

// The rules 21 to 22.
pub(crate) fn check_steps(
    count: usize,
    steps: &[usize; 144],
    kernels: &[i16],
) -> Result<(), Refusal>
    ensures { code_of result ≡ steps_code count (step_at steps.now) kernels.now }
{
    require(Refusal::StepCount, (1..=8).contains(&count))?;
    check_layers(count, steps, kernels)?;
    require(Refusal::Links, all_follow(count, steps))
}

// The first of the rules 21 to 22 that is broken, or 0.
pub fn steps_code(count: usize, steps: &[usize; 144], kernels: &[i16]) -> usize
    ensures { result ≡ steps_code count (step_at steps.now) kernels.now }
{
    code_of(check_steps(count, steps, kernels))
}
