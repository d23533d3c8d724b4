// Trying a budget: what a call of the job would answer, and how many output values it would store. Output and scratch are shared slices, so nothing is
// written.
ghost use Rattle.std.specs.Prelude.{◌≡◌, length};
ghost use Rattle.checks.specs.Engine.{engine_of};
ghost use Rattle.engine.specs.Preview.{preview_of};

use crate::answer::answer_by;
use crate::job::{Job, Progress};
use checks::method::Method;
use values::values_in;

// What a preview answers.
#[derive(Clone, Copy)]
pub struct Preview {
    pub progress: Progress, // what the call would answer
    pub values: usize, // output values that it would store, 0 where it would be refused
}

impl Job {
    // What `advance_by` would answer, and how many values it would store.
    pub fn preview_by(
        self,
        method: Method,
        budget: usize,
        map: &[i16],
        kernel: &[i16],
        output: &[i32],
        scratch: &[u64],
    ) -> Preview
        ensures { result ≡ preview_of (engine_of method) self budget map.now kernel.now (length output.now) (length scratch.now) }
    {
        let layer = self.layer;
        let next = self.next;
        let progress = answer_by(
            self,
            method,
            budget,
            map,
            kernel,
            output.len(),
            scratch.len(),
        );
        let to = progress.job.next;
        let values = if progress.code == 0 {
            values_in(method, layer, next, to)
        } else {
            0
        };
        Preview {
            progress: progress,
            values: values,
        }
    }
}
