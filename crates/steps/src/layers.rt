// The checks of the layers, all of one before those of the next: 1 to 9 with 23 after 7, then 11, 14, 24, 16 and 20.
ghost use Rattle.std.specs.Prelude.{◌≡◌, ◌*◌, ◌≤◌};
ghost use Rattle.base.specs.Rules.{first_broken};
ghost use Rattle.base.specs.Refusals.{code_of};
ghost use Rattle.load.specs.Weights.{Weighted};
ghost use Rattle.steps.specs.Steps.{step_at};
ghost use Rattle.steps.specs.Answer.{enough, kernel_rules, layer_rules, layers_rules};

use crate::kernels::weights_before;
use crate::step::{Step, step_at};
use base::rules::{Refusal, require};
use checks::calls::check_weights;
use checks::method::Method;
use checks::planner::check_plan;
use layer::sizes;

// Whether rule 11 holds: `needed` weights belong to the layers up to this one.
fn is_enough(last: bool, needed: usize, weights: usize) -> bool
    ensures { result ≡ enough last needed weights }
{
    if last {
        weights == needed
    } else {
        needed <= weights
    }
}

// The rules 24, 16 and 20.
fn check_kernel(step: Step, kernel: &[i16]) -> Result<(), Refusal>
    requires { Weighted step.layer kernel.now }
    ensures { code_of result ≡ first_broken (kernel_rules step kernel.now) }
{
    check_weights(step.layer, kernel)?;
    require(Refusal::Levels, (0..=31).contains(&step.shift))?;
    require(Refusal::Levels, (1..=32767).contains(&step.bound))
}

// The rules of a layer. `before` weights belong to the layers before it.
fn check_layer(step: Step, last: bool, before: usize, kernels: &[i16]) -> Result<(), Refusal>
    requires { before ≤ 8 * 495616 }
    ensures { code_of result ≡ first_broken (layer_rules step last before kernels.now) }
{
    check_plan(Method::Tiles, step.layer)?;
    let to = before + sizes::kernel_count(step.layer);
    require(Refusal::KernelLength, is_enough(last, to, kernels.len()))?;
    require(Refusal::Peak, (1..=32767).contains(&step.layer.peak))?;
    check_kernel(step, &kernels[before..to])
}

// The rules of all layers, layer by layer.
pub(crate) fn check_layers(
    count: usize,
    steps: &[usize; 144],
    kernels: &[i16],
) -> Result<(), Refusal>
    requires { count ≤ 8 }
    ensures { code_of result ≡ first_broken (layers_rules count (step_at steps.now) kernels.now count) }
{
    for k in 0..count {
        let before = weights_before(steps, k);
        check_layer(step_at(steps, k), k + 1 == count, before, kernels)?;
    }
    Ok(())
}
