// Jobs in budgets: at every stop the answer and the whole output, with refused calls between.
ghost use Rattle.std.specs.Prelude.{◌≤◌, length};

use crate::print;
use checks::method::Method;
use engine::job::Job;
use layer::shape::Layer;
use std::io::{self, Print};
use vectors::sequence::draw_values;
use vectors::text::line;

// One call: what it answers, and the output that it leaves. Scratch is lent anew to each call, dirty and one word longer than is used in F_5.
fn stop(
    out: &impl Print,
    job: Job,
    budget: usize,
    map: &[i16],
    kernel: &[i16],
    output: &mut [i32],
) -> io::Result<Job>
    requires { length output.old ≤ 1024 }
{
    let mut scratch = [7u64; 12289];
    let progress = job.advance_by(Method::Tiles, budget, map, kernel, output, &mut scratch);
    let answer = [
        budget as u64,
        progress.code as u64,
        progress.count as u64,
        progress.job.next as u64,
        progress.done as u64,
    ];
    line(out, b"budget # code # count # next # done # \n", &answer)?;
    print::rows(out, output, progress.job.layer.columns)?;
    Ok(progress.job)
}

// A whole job: none of its tiles, one, one in a call without a map, two, all that are left, and one more when all is done. Then a job whose
// index is above the total.
fn in_budgets(
    out: &impl Print,
    layer: Layer,
    map: &[i16],
    kernel: &[i16],
    output: &mut [i32],
) -> io::Result<()>
    requires { length output.old ≤ 1024 }
{
    let budgets = [0usize, 1, 1, 2, 18446744073709551615, 1];
    let mut job = Job::new(layer);
    for (call, budget) in budgets.iter().enumerate() {
        let lent = if call == 2 { &map[..0] } else { map };
        job = stop(out, job, *budget, lent, kernel, output)?;
    }
    job.next = 18446744073709551615;
    stop(out, job, 1, map, kernel, output)?;
    Ok(())
}

// CONV in F_4, cropped to 2 rows of 8: 2 channels, 4 tiles.
fn conv(out: &impl Print) -> io::Result<()> {
    let layer = Layer {
        kind: 0,
        field: 4,
        inputs: 2,
        outputs: 2,
        height: 12,
        width: 130,
        side: 11,
        stride: 4,
        padding: 5,
        peak: 100,
        top: 1,
        left: 3,
        rows: 2,
        columns: 8,
        below: 0,
        beside: 0,
    };
    let mut map = [0i16; 3120];
    let mut kernel = [0i16; 484];
    let mut output = [7i32; 32];
    let seed = draw_values(&mut map, 100, 1);
    draw_values(&mut kernel, 1, seed);
    in_budgets(out, layer, &map, &kernel, &mut output)
}

// TCONV in F_5, cropped to 1 row of 70: 2 channels, 4 tiles.
fn tconv(out: &impl Print) -> io::Result<()> {
    let layer = Layer {
        kind: 1,
        field: 5,
        inputs: 2,
        outputs: 2,
        height: 3,
        width: 40,
        side: 5,
        stride: 2,
        padding: 1,
        peak: 1000,
        top: 2,
        left: 5,
        rows: 1,
        columns: 70,
        below: 0,
        beside: 0,
    };
    let mut map = [0i16; 240];
    let mut kernel = [0i16; 100];
    let mut output = [7i32; 140];
    let seed = draw_values(&mut map, 1000, 2);
    draw_values(&mut kernel, 1000, seed);
    in_budgets(out, layer, &map, &kernel, &mut output)
}

pub fn run(out: &impl Print) -> io::Result<()> {
    conv(out)?;
    tconv(out)
}
