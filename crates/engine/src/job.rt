// A job: a layer and the index of its next part. It is a value; each call takes it and hands back the moved job. It has no mark of its engine:
// who calls it keeps it to the one that it began with.
ghost use Rattle.std.specs.Prelude.{◌≡◌};
ghost use Rattle.checks.specs.Engine.{engine_of};
ghost use Rattle.engine.specs.Call.{start_of, Called};

use crate::answer::answer_by;
use crate::parts::finish_parts;
use base::words::clear;
use checks::method::{Method, scratch_words};
use layer::shape::Layer;
use load::offender::Offender;

#[derive(Clone, Copy)]
pub struct Job {
    pub layer: Layer,
    pub next: usize, // the index of the next part, a tile or a strip
}

// What a call answers. The number and the zeros are what C is told, and theorems on calls speak of them (`called_number`, `called_place`).
#[derive(Clone, Copy)]
pub struct Progress {
    pub code: usize, // the number of the first rule broken, or 0
    pub count: usize, // parts finished in the call
    pub job: Job, // the moved job, or the job as given where the call is refused
    pub done: bool, // no part is left
    pub offender: Offender, // the first map value beyond the peak where the code is 15 or 25; zeros with any other
}

impl Job {
    // The layer's job at part 0.
    pub fn new(layer: Layer) -> Job
        ensures { result ≡ start_of layer }
    {
        Job {
            layer: layer,
            next: 0,
        }
    }

    // Finishes the lesser of the budget and the parts left, and zeroes the words of scratch that the method uses. A refused call changes nothing.
    pub fn advance_by(
        self,
        method: Method,
        budget: usize,
        map: &[i16],
        kernel: &[i16],
        output: &mut [i32],
        scratch: &mut [u64],
    ) -> Progress
        ensures { Called (engine_of method) self budget map.now kernel.now output.old scratch.old result output.new scratch.new }
    {
        let layer = self.layer;
        let next = self.next;
        let progress = answer_by(
            self,
            method,
            budget,
            map,
            kernel,
            output.len(),
            scratch.len(),
        );
        if progress.code != 0 {
            return progress;
        }
        let to = progress.job.next;
        finish_parts(method, layer, next, to, map, kernel, output, scratch);
        clear(scratch, 0, scratch_words(method, layer));
        progress
    }
}
