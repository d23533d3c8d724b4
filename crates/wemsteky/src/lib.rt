// The C interface, declared in include/wemsteky.h. Each function takes its numbers apart, calls the library and puts the answer together.
// The functions by tiles and by strips stay pairs, and the answers arrays of numbers: the C interface names each of them.
#![tactic(auto)]

ghost use Rattle.std.specs.Prelude.{◌≡◌, length};
ghost use Rattle.transform.specs.Answer.{transform_code, transformed, inverted};
ghost use Rattle.layer.specs.Shape.{tile_total};
ghost use Rattle.layer.specs.Strip.{strip_total};
ghost use Rattle.layer.specs.Numbers.{layer_of};
ghost use Rattle.checks.specs.Engine.{tile_engine, strip_engine};
ghost use Rattle.checks.specs.Checks.{plan_of};
ghost use Rattle.engine.specs.Call.{start_of};
ghost use Rattle.engine.specs.Preview.{preview_of};
ghost use Rattle.levels.specs.Answer.{levels_code, levels_left};
ghost use Rattle.noise.specs.Draw.{last_seed, noise_left};
ghost use Rattle.join.specs.Answer.{join_code, join_left};
ghost use Rattle.worst.specs.Answer.{worst_code, worst_left};
ghost use Rattle.wemsteky.specs.Figures.{plan_figures, offender_figures, progress_figures, preview_figures, Reported, SequenceReported};

use checks::calls::Checked;
use checks::method::Method;
use checks::planner;
use engine::job::{Job, Progress};
use engine::preview::Preview;
use layer::numbers::layer_of;
use layer::shape::Plan;

// E, F, the total of parts and the words of scratch; zeros where the layer is refused.
fn show_plan(plan: Plan, figures: &mut [usize; 4]) -> usize
    ensures value { result ≡ plan.code }
    ensures figures_after { figures.new ≡ plan_figures plan }
{
    *figures = [plan.height, plan.width, plan.parts, plan.scratch];
    plan.code
}

// By tiles.
#[unsafe(no_mangle)]
pub extern "C" fn wemsteky_plan(layer: &[usize; 16], figures: &mut [usize; 4]) -> usize
    ensures value { result ≡ (plan_of tile_engine (layer_of layer.now)).code }
    ensures figures_after { figures.new ≡ plan_figures (plan_of tile_engine (layer_of layer.now)) }
{
    show_plan(planner::plan_by(Method::Tiles, layer_of(layer)), figures)
}

// By strips.
#[unsafe(no_mangle)]
pub extern "C" fn wemsteky_strip_plan(layer: &[usize; 16], figures: &mut [usize; 4]) -> usize
    ensures value { result ≡ (plan_of strip_engine (layer_of layer.now)).code }
    ensures figures_after { figures.new ≡ plan_figures (plan_of strip_engine (layer_of layer.now)) }
{
    show_plan(planner::plan_by(Method::Strips, layer_of(layer)), figures)
}

// The count, the index of the next part and the done mark of a call; channel, row, column and side of the map value that 15 and 25 speak of.
fn seven_figures(progress: Progress) -> [usize; 7]
    ensures { result ≡ progress_figures progress }
{
    let done = progress.done as usize;
    [
        progress.count,
        progress.job.next,
        done,
        progress.offender.channel,
        progress.offender.row,
        progress.offender.column,
        progress.offender.side,
    ]
}

fn report(progress: Progress, figures: &mut [usize; 7]) -> usize
    ensures value { result ≡ progress.code }
    ensures figures_after { figures.new ≡ progress_figures progress }
{
    *figures = seven_figures(progress);
    progress.code
}

// The figures of the call, then the values that it would store.
fn report_preview(preview: Preview, figures: &mut [usize; 8]) -> usize
    ensures value { result ≡ preview.progress.code }
    ensures figures_after { figures.new ≡ preview_figures preview }
{
    let call = seven_figures(preview.progress);
    *figures = [
        call[0],
        call[1],
        call[2],
        call[3],
        call[4],
        call[5],
        call[6],
        preview.values,
    ];
    preview.progress.code
}

// The job of a layer at that part.
fn job_of(layer: &[usize; 16], next: usize) -> Job
    ensures { result ≡ record { layer = layer_of layer.now; next = next } }
{
    Job {
        layer: layer_of(layer),
        next: next,
    }
}

#[unsafe(no_mangle)]
pub extern "C" fn wemsteky_run(
    layer: &[usize; 16],
    map: &[i16],
    kernel: &[i16],
    output: &mut [i32],
    scratch: &mut [u64],
    figures: &mut [usize; 7],
) -> usize
    ensures { Reported tile_engine (start_of (layer_of layer.now)) (tile_total (layer_of layer.now)) map.now kernel.now output.old scratch.old result figures.new output.new scratch.new }
{
    let progress = engine::run_by(Method::Tiles, layer_of(layer), map, kernel, output, scratch);
    report(progress, figures)
}

#[unsafe(no_mangle)]
pub extern "C" fn wemsteky_strip_run(
    layer: &[usize; 16],
    map: &[i16],
    kernel: &[i16],
    output: &mut [i32],
    scratch: &mut [u64],
    figures: &mut [usize; 7],
) -> usize
    ensures { Reported strip_engine (start_of (layer_of layer.now)) (strip_total (layer_of layer.now)) map.now kernel.now output.old scratch.old result figures.new output.new scratch.new }
{
    let progress = engine::run_by(
        Method::Strips,
        layer_of(layer),
        map,
        kernel,
        output,
        scratch,
    );
    report(progress, figures)
}

#[unsafe(no_mangle)]
pub extern "C" fn wemsteky_job(
    layer: &[usize; 16],
    next: usize,
    budget: usize,
    map: &[i16],
    kernel: &[i16],
    output: &mut [i32],
    scratch: &mut [u64],
    figures: &mut [usize; 7],
) -> usize
    ensures { Reported tile_engine (record { layer = layer_of layer.now; next = next }) budget map.now kernel.now output.old scratch.old result figures.new output.new scratch.new }
{
    let job = job_of(layer, next);
    let progress = job.advance_by(Method::Tiles, budget, map, kernel, output, scratch);
    report(progress, figures)
}

#[unsafe(no_mangle)]
pub extern "C" fn wemsteky_strip_job(
    layer: &[usize; 16],
    next: usize,
    budget: usize,
    map: &[i16],
    kernel: &[i16],
    output: &mut [i32],
    scratch: &mut [u64],
    figures: &mut [usize; 7],
) -> usize
    ensures { Reported strip_engine (record { layer = layer_of layer.now; next = next }) budget map.now kernel.now output.old scratch.old result figures.new output.new scratch.new }
{
    let job = job_of(layer, next);
    let progress = job.advance_by(Method::Strips, budget, map, kernel, output, scratch);
    report(progress, figures)
}

#[unsafe(no_mangle)]
pub extern "C" fn wemsteky_preview(
    layer: &[usize; 16],
    next: usize,
    budget: usize,
    map: &[i16],
    kernel: &[i16],
    output: &[i32],
    scratch: &[u64],
    figures: &mut [usize; 8],
) -> usize
    ensures value { result ≡ (preview_of tile_engine (record { layer = layer_of layer.now; next = next }) budget map.now kernel.now (length output.now) (length scratch.now)).progress.code }
    ensures figures_after { figures.new ≡ preview_figures (preview_of tile_engine (record { layer = layer_of layer.now; next = next }) budget map.now kernel.now (length output.now) (length scratch.now)) }
{
    let job = job_of(layer, next);
    let preview = job.preview_by(Method::Tiles, budget, map, kernel, output, scratch);
    report_preview(preview, figures)
}

#[unsafe(no_mangle)]
pub extern "C" fn wemsteky_strip_preview(
    layer: &[usize; 16],
    next: usize,
    budget: usize,
    map: &[i16],
    kernel: &[i16],
    output: &[i32],
    scratch: &[u64],
    figures: &mut [usize; 8],
) -> usize
    ensures value { result ≡ (preview_of strip_engine (record { layer = layer_of layer.now; next = next }) budget map.now kernel.now (length output.now) (length scratch.now)).progress.code }
    ensures figures_after { figures.new ≡ preview_figures (preview_of strip_engine (record { layer = layer_of layer.now; next = next }) budget map.now kernel.now (length output.now) (length scratch.now)) }
{
    let job = job_of(layer, next);
    let preview = job.preview_by(Method::Strips, budget, map, kernel, output, scratch);
    report_preview(preview, figures)
}

#[unsafe(no_mangle)]
pub extern "C" fn wemsteky_transform(field: usize, words: &mut [u64]) -> usize
    ensures { (result ≡ transform_code field words.old) × (words.new ≡ transformed field words.old) }
{
    transform::transform(field, words)
}

#[unsafe(no_mangle)]
pub extern "C" fn wemsteky_inverse(field: usize, words: &mut [u64]) -> usize
    ensures { (result ≡ transform_code field words.old) × (words.new ≡ inverted field words.old) }
{
    transform::inverse(field, words)
}

#[unsafe(no_mangle)]
pub extern "C" fn wemsteky_levels(
    shift: usize,
    bound: usize,
    outputs: &[i32],
    levels: &mut [i16],
) -> usize
    ensures value { result ≡ levels_code shift bound (length outputs.now) (length levels.old) }
    ensures levels_after { levels.new ≡ levels_left shift bound outputs.now levels.old }
{
    levels::levels(shift, bound, outputs, levels)
}

#[unsafe(no_mangle)]
pub extern "C" fn wemsteky_noise(seed: u32, map: &mut [i16]) -> u32
    ensures value { result ≡ last_seed seed map.old }
    ensures map_after { map.new ≡ noise_left seed map.old }
{
    noise::fill(seed, map)
}

#[unsafe(no_mangle)]
pub extern "C" fn wemsteky_join(
    first: &[usize; 16],
    first_kernel: &[i16],
    second: &[usize; 16],
    second_kernel: &[i16],
    joined: &mut [i16],
) -> usize
    ensures value { result ≡ join_code (layer_of first.now) first_kernel.now (layer_of second.now) second_kernel.now (length joined.old) }
    ensures joined_after { joined.new ≡ join_left (layer_of first.now) first_kernel.now (layer_of second.now) second_kernel.now joined.old }
{
    join::join(
        layer_of(first),
        first_kernel,
        layer_of(second),
        second_kernel,
        joined,
    )
}

#[unsafe(no_mangle)]
pub extern "C" fn wemsteky_worst_map(layer: &[usize; 16], kernel: &[i16], map: &mut [i16]) -> usize
    ensures value { result ≡ worst_code (layer_of layer.now) kernel.now (length map.old) }
    ensures map_after { map.new ≡ worst_left (layer_of layer.now) kernel.now map.old }
{
    worst::worst_map(layer_of(layer), kernel, map)
}

// The number of an answer, and channel, row, column and side of the map value that 15 and 25 speak of.
fn show_place(answer: Checked, figures: &mut [usize; 4]) -> usize
    ensures value { result ≡ answer.code }
    ensures figures_after { figures.new ≡ offender_figures answer.offender }
{
    *figures = [
        answer.offender.channel,
        answer.offender.row,
        answer.offender.column,
        answer.offender.side,
    ];
    answer.code
}

// `last` is the final buffer.
#[unsafe(no_mangle)]
pub extern "C" fn wemsteky_sequence(
    count: usize,
    steps: &[usize; 144],
    map: &[i16],
    kernels: &[i16],
    first: &mut [i16],
    second: &mut [i16],
    output: &mut [i32],
    scratch: &mut [u64],
    last: &mut [i16],
    figures: &mut [usize; 4],
) -> usize
    ensures { SequenceReported count steps.now map.now kernels.now first.old second.old output.old scratch.old last.old result figures.new first.new second.new output.new scratch.new last.new }
{
    let answer = sequence::sequence(
        count, steps, map, kernels, first, second, output, scratch, last,
    );
    show_place(answer, figures)
}
