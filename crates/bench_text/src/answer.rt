// What the bench program prints for an input.
ghost use Rattle.std.specs.Prelude.{◌≡◌, true, false, ◌≤◌, length, take, drop};
ghost use Rattle.layer.specs.Planned.{Planned};
ghost use Rattle.layer.specs.Shape.{map_count, kernel_count, output_count};
ghost use Rattle.words.specs.Words.{words_of};
ghost use Rattle.words.specs.Reading.{BodyRead};
ghost use Rattle.lines.specs.Writing.{Appended};
ghost use Rattle.bench_text.specs.Printed.{small, ran, body_printed, printed};

use checks::method::Method;
use checks::planner::plan_code;
use layer::numbers::layer_of;
use layer::shape::Layer;
use layer::sizes;

// Map and kernel, and no word after them.
fn read_body(text: &[u8], map: &mut [i16], kernel: &mut [i16]) -> bool
    ensures { BodyRead (words_of false text.now) (length map.old) (length kernel.old) map.new kernel.new result }
{
    let Ok(after_map) = words::read_numbers(text, false, map) else {
        return false;
    };
    let Ok(after_kernel) = words::read_numbers(after_map, false, kernel) else {
        return false;
    };
    words::no_more(after_kernel)
}

// Whether the field is 4 and the counts of map values, weights and outputs fit the buffers. The field's number is compared, as in `small`.
fn is_small(layer: Layer) -> bool
    requires { Planned layer }
    ensures { result ≡ small layer }
{
    layer.field == 4
        && sizes::map_count(layer) <= 1024
        && sizes::kernel_count(layer) <= 512
        && sizes::output_count(layer) <= 1024
}

// A run, and its lines. The output buffer is as long as the layer's count.
fn put_outputs(
    lines: &mut [u8],
    layer: Layer,
    map: &[i16],
    kernel: &[i16],
    output: &mut [i32],
) -> usize
    requires { Planned layer × (length output.old ≡ output_count layer) × (output_count layer ≤ 1024) × (length lines.old ≡ 16384) }
    ensures { Appended 0 (ran layer map.now kernel.now) lines.old lines.new result }
{
    let mut scratch = [0u64; 3072];
    let progress = engine::run_by(Method::Tiles, layer, map, kernel, output, &mut scratch);
    if progress.code != 0 {
        return lines::put_numbered(lines, 0, b"refused", progress.code);
    }
    let at = lines::put_numbered(lines, 0, b"tiles", progress.count);
    lines::put_rows(lines, at, output, layer.columns)
}

// The same with a buffer for the outputs.
fn put_run(lines: &mut [u8], layer: Layer, map: &[i16], kernel: &[i16]) -> usize
    requires { Planned layer × (small layer ≡ true) × (length lines.old ≡ 16384) }
    ensures { Appended 0 (ran layer map.now kernel.now) lines.old lines.new result }
{
    let mut output = [0i32; 1024];
    let outputs = sizes::output_count(layer);
    put_outputs(lines, layer, map, kernel, &mut output[..outputs])
}

// Map and kernel are read, and the layer is run on them. Their buffers are as long as the layer's counts.
fn put_read(
    lines: &mut [u8],
    layer: Layer,
    text: &[u8],
    map: &mut [i16],
    kernel: &mut [i16],
) -> usize
    requires planned { Planned layer × (small layer ≡ true) × (length lines.old ≡ 16384) }
    requires map_len { (length map.old ≡ map_count layer) × (length kernel.old ≡ kernel_count layer) }
    ensures { Appended 0 (body_printed layer false (words_of false text.now)) lines.old lines.new result }
{
    if !read_body(text, map, kernel) {
        return lines::put_unreadable(lines, 0);
    }
    put_run(lines, layer, map, kernel)
}

// The lines after a header that the planner accepts.
fn put_body(lines: &mut [u8], layer: Layer, text: &[u8]) -> usize
    requires { Planned layer × (length lines.old ≡ 16384) }
    ensures { Appended 0 (body_printed layer false (words_of false text.now)) lines.old lines.new result }
{
    if !is_small(layer) {
        return lines::put_unreadable(lines, 0);
    }
    let mut map = [0i16; 1024];
    let mut kernel = [0i16; 512];
    let values = sizes::map_count(layer);
    let weights = sizes::kernel_count(layer);
    put_read(
        lines,
        layer,
        text,
        &mut map[..values],
        &mut kernel[..weights],
    )
}

// The first bytes of `lines` become what the bench program prints; their count is the answer. The bytes after them stay. The number of a refusal is
// printed, so it stays one.
pub fn answer(lines: &mut [u8; 16384], input: &[u8]) -> usize
    ensures { (result ≤ length lines.new) × (take result lines.new ≡ printed input.now)
        × (drop result lines.new ≡ drop result lines.old) }
{
    let long = input.len() > 16384;
    let text = &input[..input.len().min(16384)];
    let mut numbers = [0; 16];
    let Ok(body) = words::read_numbers(text, long, &mut numbers[..14]) else {
        return lines::put_unreadable(lines, 0);
    };
    let layer = layer_of(&numbers);
    let code = plan_code(Method::Tiles, layer);
    if code != 0 {
        return lines::put_numbered(lines, 0, b"refused", code);
    }
    if long {
        return lines::put_unreadable(lines, 0);
    }
    put_body(lines, layer, body)
}
