// The chart cases of the request. Each runs a layer of one map channel and one output channel, or asks the planner.
ghost use Rattle.std.specs.Prelude.{◌≤◌, length};

use crate::print;
use checks::method::Method;
use checks::planner::plan_by;
use layer::shape::Layer;
use std::io::{self, Print};
use vectors::text::line;

// A layer of one channel each, not cropped.
fn whole(
    kind: usize,
    field: usize,
    height: usize,
    width: usize,
    side: usize,
    stride: usize,
    padding: usize,
    peak: usize,
    rows: usize,
    columns: usize,
) -> Layer {
    Layer {
        kind,
        field,
        inputs: 1,
        outputs: 1,
        height,
        width,
        side,
        stride,
        padding,
        peak,
        top: 0,
        left: 0,
        rows,
        columns,
        below: 0,
        beside: 0,
    }
}

// The number of the case, the answer of a run, and the outputs where it is accepted.
fn run_case(
    out: &impl Print,
    number: u64,
    layer: Layer,
    map: &[i16],
    kernel: &[i16],
    output: &mut [i32],
) -> io::Result<()>
    requires { length output.old ≤ 1024 }
{
    let mut scratch = [0u64; 12288];
    let progress = engine::run_by(Method::Tiles, layer, map, kernel, output, &mut scratch);
    print::case(out, number, progress.code as u64, progress.count as u64)?;
    if progress.code == 0 {
        print::rows(out, output, layer.columns)?;
    }
    Ok(())
}

// Cases 1 and 6: a kernel over the map X of 3 by 3.
fn on_x(out: &impl Print, number: u64, kernel: &[i16]) -> io::Result<()> {
    let x = [1i16, 2, 3, 4, 5, 6, 7, 8, 9];
    let mut output = [0i32; 4];
    let layer = whole(0, 4, 3, 3, 2, 1, 0, 9, 2, 2);
    run_case(out, number, layer, &x, kernel, &mut output)
}

// Cases 2 to 4: the map Y of 2 by 2 transposed with the kernel G, which has the same values, to outputs of `side` by `side`, `count` in all.
fn on_y(
    out: &impl Print,
    number: u64,
    stride: usize,
    padding: usize,
    side: usize,
    count: usize,
) -> io::Result<()>
    requires { count ≤ 16 }
{
    let y = [1i16, 2, 3, 4];
    let layer = whole(1, 4, 2, 2, 2, stride, padding, 4, side, side);
    let mut output = [0i32; 16];
    run_case(out, number, layer, &y, &y, &mut output[..count])
}

// Cases 1 to 4 and 6: X, Y and G. Case 2 has a stride of 2, case 3 overlapping windows, case 4 padding.
fn small_charts(out: &impl Print) -> io::Result<()> {
    on_x(out, 1, &[1, 2, 3, 4])?;
    on_y(out, 2, 2, 0, 4, 16)?;
    on_y(out, 3, 1, 0, 3, 9)?;
    on_y(out, 4, 1, 1, 1, 1)?;
    on_x(out, 6, &[1, 0, 0, -1])?;
    Ok(())
}

// A single value and a single weight in F_4.
fn single(out: &impl Print, number: u64, peak: usize, value: i16, weight: i16) -> io::Result<()> {
    let layer = whole(0, 4, 1, 1, 1, 1, 0, peak, 1, 1);
    let mut output = [0i32; 1];
    run_case(out, number, layer, &[value], &[weight], &mut output)
}

// Case 9: four values and weights in F_5, of which the third weight is given.
fn wide(out: &impl Print, weight: i16) -> io::Result<()> {
    let layer = whole(0, 5, 2, 2, 2, 1, 0, 32767, 1, 1);
    let map = [32767i16; 4];
    let kernel = [32767, 32767, weight, 0];
    let mut output = [0i32; 1];
    run_case(out, 9, layer, &map, &kernel, &mut output)
}

// Cases 7 to 9: loads at the limit and above it.
fn loads(out: &impl Print) -> io::Result<()> {
    single(out, 7, 16384, 16384, 2)?;
    single(out, 7, 16384, 16384, -2)?;
    single(out, 8, 10923, 10922, 3)?;
    single(out, 8, 10922, 10922, 3)?;
    wide(out, 4)?;
    wide(out, 5)?;
    Ok(())
}

// The number of the case and the planner's answer.
fn plan_case(out: &impl Print, number: u64, layer: Layer) -> io::Result<()> {
    let figures = plan_by(Method::Tiles, layer);
    print::case(out, number, figures.code as u64, figures.parts as u64)
}

// Cases 10 and 11, and the heights of case 13.
fn plans(out: &impl Print) -> io::Result<()> {
    plan_case(out, 10, whole(1, 4, 1, 1, 3, 1, 2, 1, 1, 1))?;
    plan_case(out, 11, whole(0, 4, 32, 32, 3, 1, 0, 1, 30, 30))?;
    plan_case(out, 11, whole(0, 4, 33, 32, 3, 1, 0, 1, 31, 30))?;
    plan_case(out, 13, whole(0, 4, 513, 512, 1, 1, 0, 1, 513, 512))?;
    plan_case(out, 13, whole(0, 4, 512, 512, 1, 1, 0, 1, 512, 512))?;
    Ok(())
}

// Case 13: −32,768 under a peak. Whether it is answered with 25, and said to be below −A.
fn is_beyond(peak: usize) -> bool {
    let mut one = [0i32; 1];
    let mut scratch = [0u64; 3072];
    let layer = whole(0, 4, 1, 1, 1, 1, 0, peak, 1, 1);
    let progress = engine::run_by(
        Method::Tiles,
        layer,
        &[-32768i16],
        &[0i16],
        &mut one,
        &mut scratch,
    );
    progress.code == 25 && progress.offender.side == 2
}

// The same under every peak: how many are.
fn peaks(out: &impl Print) -> io::Result<()> {
    let refused = (1..=32767).filter(|peak| is_beyond(*peak)).count();
    line(out, b"case # refused # \n", &[13, refused as u64])
}

pub fn run(out: &impl Print) -> io::Result<()> {
    small_charts(out)?;
    loads(out)?;
    plans(out)?;
    peaks(out)?;
    Ok(())
}
