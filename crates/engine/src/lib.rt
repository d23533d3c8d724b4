// Whole runs, jobs that advance by a budget of parts, tiles or strips, and previews of what a budget would do.
#![tactic(auto)]

ghost use Rattle.checks.specs.Engine.{engine_of};
ghost use Rattle.engine.specs.Call.{start_of, Called};

use crate::job::{Job, Progress};
use checks::method::Method;
use checks::planner::plan_by;
use layer::shape::Layer;

mod answer;
pub mod job;
mod parts;
pub mod preview;
mod strips;
mod tiles;

// A whole run: the job from part 0 with the total as its budget. A refused plan has the total 0, and the job refuses it again.
pub fn run_by(
    method: Method,
    layer: Layer,
    map: &[i16],
    kernel: &[i16],
    output: &mut [i32],
    scratch: &mut [u64],
) -> Progress
    ensures { Called (engine_of method) (start_of layer) ((engine_of method).total layer) map.now kernel.now output.old scratch.old result output.new scratch.new }
{
    let plan = plan_by(method, layer);
    let job = Job::new(layer);
    job.advance_by(method, plan.parts, map, kernel, output, scratch)
}
