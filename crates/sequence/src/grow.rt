// The layers one after the other. The output buffer stands between two maps: a layer's direct sums are written to its front, then their levels to the
// front of a work map, which the next layer reads. A map is of no more use once its layer was run, so one work map holds every map between the first and
// the final one.
ghost use Rattle.std.specs.Prelude.{◌≡◌, ◌<◌, length, take};
ghost use Rattle.layer.specs.Shape.{map_count, output_count};
ghost use Rattle.levels.specs.Answer.{levels_of};
ghost use Rattle.steps.specs.Steps.{step_at, kernel_at};
ghost use Rattle.steps.specs.Linked.{Linked};
ghost use Rattle.steps.specs.Runnable.{Taken, Roomy};
ghost use Rattle.sequence.specs.Sequence.{sums_of, map_after};
ghost use Rattle.sequence.specs.Ready.{RunReady, LevelsReady};

use checks::method::Method;
use layer::sizes;
use steps::kernels::kernel_of;
use steps::step::step_at;

// The direct sums of step k at the front of `output`, of the map at the front of `map`.
fn layer_sums(
    steps: &[usize; 144],
    k: usize,
    map: &[i16],
    kernels: &[i16],
    output: &mut [i32],
    scratch: &mut [u64],
)
    requires { RunReady (step_at steps.now) k map.now kernels.now (length output.old) (length scratch.old) }
    ensures { take (output_count (step_at steps.now k).layer) output.new ≡ sums_of (step_at steps.now k).layer (take (map_count (step_at steps.now k).layer) map.now) (kernel_at (step_at steps.now) kernels.now k) }
{
    let layer = step_at(steps, k).layer;
    let values = sizes::map_count(layer);
    let outputs = sizes::output_count(layer);
    let kernel = kernel_of(steps, kernels, k);
    engine::run_by(
        Method::Tiles,
        layer,
        &map[..values],
        kernel,
        &mut output[..outputs],
        scratch,
    );
}

// The levels of step k's outputs, which stand at the front of `output`, at the front of `map`.
fn layer_levels(steps: &[usize; 144], k: usize, output: &[i32], map: &mut [i16])
    requires { (k < 8) × LevelsReady (step_at steps.now k) (length output.now) (length map.old) }
    ensures { take (output_count (step_at steps.now k).layer) map.new ≡ levels_of (step_at steps.now k).shift (step_at steps.now k).bound (take (output_count (step_at steps.now k).layer) output.now) }
{
    let step = step_at(steps, k);
    let n = sizes::output_count(step.layer);
    levels::levels(step.shift, step.bound, &output[..n], &mut map[..n]);
}

// All steps: the final buffer holds the map after the last one.
pub(crate) fn grow(
    count: usize,
    steps: &[usize; 144],
    map: &[i16],
    kernels: &[i16],
    work: &mut [i16],
    output: &mut [i32],
    scratch: &mut [u64],
    last: &mut [i16],
)
    requires linked { Linked count (step_at steps.now) kernels.now × Taken (step_at steps.now 0).layer map.now }
    requires roomy { Roomy count (step_at steps.now) (length work.old) (length output.old) (length scratch.old) (length last.old) }
    ensures { last.new ≡ map_after (step_at steps.now) map.now kernels.now count }
{
    layer_sums(steps, 0, map, kernels, output, scratch);
    for k in 1..count {
        layer_levels(steps, k - 1, output, work);
        layer_sums(steps, k, work, kernels, output, scratch);
    }
    layer_levels(steps, count - 1, output, last);
}
