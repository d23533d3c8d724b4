// The kernels of a sequence stand end to end: a step's part of them.
ghost use Rattle.std.specs.Prelude.{◌≡◌, ℕ, ◌*◌, ◌≤◌, ◌<◌};
ghost use Rattle.layer.specs.Planned.{Planned};
ghost use Rattle.steps.specs.Steps.{step_at, weights_before, kernel_at};
ghost use Rattle.steps.specs.Linked.{Usable};

use crate::step::step_at;
use layer::sizes;

// The weights of the layers before step k.
pub(crate) fn weights_before(steps: &[usize; 144], k: usize) -> usize
    requires { (k ≤ 8) × ((i : ℕ) → i < k → Planned (step_at steps.now i).layer) }
    ensures { (result ≡ weights_before (step_at steps.now) k) × (result ≤ 8 * 495616) }
{
    let mut before = 0;
    for i in 0..k {
        let step = step_at(steps, i);
        before += sizes::kernel_count(step.layer);
    }
    before
}

// The kernel of step k.
pub fn kernel_of<'a>(steps: &[usize; 144], kernels: &'a [i16], k: usize) -> &'a [i16]
    requires { (k < 8) × ((i : ℕ) → i ≤ k → Usable (step_at steps.now i) (weights_before (step_at steps.now) i) kernels.now) }
    ensures { result.now ≡ kernel_at (step_at steps.now) kernels.now k }
{
    let from = weights_before(steps, k);
    let step = step_at(steps, k);
    let to = from + sizes::kernel_count(step.layer);
    &kernels[from..to]
}
