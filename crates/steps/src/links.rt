// Check 22: each layer takes what the step before it makes.
ghost use Rattle.std.specs.Prelude.{◌≡◌, ◌+◌, ◌-◌, ◌≤◌};
ghost use Rattle.algebra.specs.Every.{every};
ghost use Rattle.steps.specs.Steps.{step_at};
ghost use Rattle.steps.specs.Answer.{follows};

use crate::step::{Step, step_at};

// Whether the next layer takes what a step makes: as many channels, rows and columns, within its peak.
#[tactic(auto, unfolding(crate::specs::Answer::follows))]
fn is_followed(one: Step, next: Step) -> bool
    ensures { result ≡ follows one next }
{
    (one.layer.outputs == next.layer.inputs)
        & (one.layer.rows == next.layer.height)
        & (one.layer.columns == next.layer.width)
        & (one.bound == next.layer.peak)
}

// Whether each layer does.
pub(crate) fn all_follow(count: usize, steps: &[usize; 144]) -> bool
    requires { (1 ≤ count) × (count ≤ 8) }
    ensures { result ≡ every (count - 1) (λ k. follows (step_at steps.now k) (step_at steps.now (k + 1))) }
{
    let mut fit = true;
    for k in 0..count - 1 {
        fit &= is_followed(step_at(steps, k), step_at(steps, k + 1));
    }
    fit
}
