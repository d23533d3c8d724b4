// What a call of a job answers, found before any part is finished: it is read off the checks and the count of parts.
ghost use Rattle.std.specs.Prelude.{◌≡◌};
ghost use Rattle.load.specs.Offender.{no_offender};
ghost use Rattle.checks.specs.Engine.{engine_of};
ghost use Rattle.engine.specs.Call.{refused, answer_of};

use crate::job::{Job, Progress};
use checks::calls::{Checked, check_job};
use checks::method::{Method, part_total};
use layer::shape::Layer;
use load::offender::Offender;

// What a refused call answers: the job as given.
fn refusal(job: Job, checked: Checked) -> Progress
    ensures { result ≡ refused job checked.code checked.offender }
{
    let offender = checked.offender;
    Progress {
        code: checked.code,
        count: 0,
        job: job,
        done: false,
        offender: offender,
    }
}

// What an accepted call answers: the job moved to the next part.
fn acceptance(layer: Layer, next: usize, count: usize, done: bool) -> Progress
    ensures { result ≡ record { code = 0; count = count; job = record { layer = layer; next = next }; done = done; offender = no_offender } }
{
    Progress {
        code: 0,
        count: count,
        job: Job {
            layer: layer,
            next: next,
        },
        done: done,
        offender: Offender::none(),
    }
}

// What a call of the job by that method with that budget answers. Of output and scratch the lengths are given.
pub(crate) fn answer_by(
    job: Job,
    method: Method,
    budget: usize,
    map: &[i16],
    kernel: &[i16],
    output: usize,
    scratch: usize,
) -> Progress
    ensures { result ≡ answer_of (engine_of method) job budget map.now kernel.now output scratch }
{
    let layer = job.layer;
    let next = job.next;
    let checked = check_job(method, layer, next, map, kernel, output, scratch);
    if checked.code != 0 {
        return refusal(job, checked);
    }
    let total = part_total(method, layer);
    let count = budget.min(total - next);
    let to = next + count;
    acceptance(layer, to, count, to == total)
}
