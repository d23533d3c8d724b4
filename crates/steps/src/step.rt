// A step of a sequence, and the steps as eight rows of eighteen numbers. They stay one row of 144 numbers, as the C interface lends them.
ghost use Rattle.std.specs.Prelude.{◌≡◌, ◌<◌};
ghost use Rattle.algebra.specs.Places.{table};
ghost use Rattle.steps.specs.Steps.{number_at, step_at};

use layer::numbers::layer_of;
use layer::shape::Layer;

// A layer and the levels that its outputs become.
#[derive(Clone, Copy)]
pub struct Step {
    pub layer: Layer,
    pub shift: usize,
    pub bound: usize, // B
}

// The first sixteen numbers of row k, which are those of its layer.
fn layer_numbers(steps: &[usize; 144], k: usize) -> [usize; 16]
    requires { k < 8 }
    ensures { result ≡ table 16 (number_at steps.now k) }
{
    let mut numbers = [0usize; 16];
    numbers.copy_from_slice(&steps[18 * k..18 * k + 16]);
    numbers
}

// Row k.
pub fn step_at(steps: &[usize; 144], k: usize) -> Step
    requires { k < 8 }
    ensures { result ≡ step_at steps.now k }
{
    let numbers = layer_numbers(steps, k);
    Step {
        layer: layer_of(&numbers),
        shift: steps[18 * k + 16],
        bound: steps[18 * k + 17],
    }
}
