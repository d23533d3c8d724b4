// Writing lines into a buffer: fixed words, numbers, rows of numbers. Each function writes from `at` on and answers with the place after:
// what the bench program's `answer` promises of its caller's buffer, also of the bytes after the end, is said of such a place.
#![tactic(auto)]

ghost use Rattle.std.specs.Prelude.{cond, [], ◌∷◌, ◌++◌, ◌+◌, ◌*◌, ◌≤◌, ◌<◌, length};
ghost use Rattle.lines.specs.Lines.{decimal, signed_decimal, numbered, unreadable, rows_text};
ghost use Rattle.lines.specs.Writing.{Appended};

// Bytes as they are.
fn put_bytes(lines: &mut [u8], at: usize, bytes: &[u8]) -> usize
    requires { at + length bytes.now ≤ length lines.old }
    ensures { Appended at bytes.now lines.old lines.new result }
{
    let end = at + bytes.len();
    lines[at..end].copy_from_slice(bytes);
    end
}

// A number in base ten: its tenth, then its last digit.
fn put_number(lines: &mut [u8], at: usize, n: usize) -> usize
    requires { at + length (decimal n) ≤ length lines.old }
    ensures { Appended at (decimal n) lines.old lines.new result }
{
    let mut last = at;
    if n >= 10 {
        last = put_number(lines, at, n / 10);
    }
    lines[last] = (48 + n % 10) as u8;
    last + 1
}

// A value with a minus sign where it is below 0.
fn put_value(lines: &mut [u8], at: usize, value: i32) -> usize
    requires { at + 11 ≤ length lines.old }
    ensures { Appended at (signed_decimal value) lines.old lines.new result }
{
    let mut first = at;
    if value < 0 {
        first = put_bytes(lines, at, b"-");
    }
    put_number(lines, first, value.unsigned_abs() as usize)
}

// A value of a row, and what follows it: a newline after the last of a row, else a space.
fn put_entry(lines: &mut [u8], at: usize, value: i32, last: bool) -> usize
    requires { at + 12 ≤ length lines.old }
    ensures { Appended at (signed_decimal value ++ (cond last 10 32 ∷ [])) lines.old lines.new result }
{
    let end = put_value(lines, at, value);
    if last {
        put_bytes(lines, end, b"\n")
    } else {
        put_bytes(lines, end, b" ")
    }
}

// The values in rows of `width`.
pub fn put_rows(lines: &mut [u8], at: usize, values: &[i32], width: usize) -> usize
    requires { (0 < width) × (at + 12 * length values.now ≤ length lines.old) }
    ensures { Appended at (rows_text width (length values.now) values.now) lines.old lines.new result }
{
    let mut place = at;
    for (i, value) in values.iter().enumerate() {
        place = put_entry(lines, place, *value, (i + 1) % width == 0);
    }
    place
}

// A word and a number on a line of their own.
pub fn put_numbered(lines: &mut [u8], at: usize, word: &[u8], n: usize) -> usize
    requires { at + length word.now + 22 ≤ length lines.old }
    ensures { Appended at (numbered word.now n) lines.old lines.new result }
{
    let space = put_bytes(lines, at, word);
    let number = put_bytes(lines, space, b" ");
    let end = put_number(lines, number, n);
    put_bytes(lines, end, b"\n")
}

// The line of an input that cannot be read.
pub fn put_unreadable(lines: &mut [u8], at: usize) -> usize
    requires { at + 11 ≤ length lines.old }
    ensures { Appended at unreadable lines.old lines.new result }
{
    put_bytes(lines, at, b"unreadable\n")
}
