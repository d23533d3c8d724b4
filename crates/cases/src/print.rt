// The line of a case, and rows of values.
ghost use Rattle.std.specs.Prelude.{◌≤◌, length};

use lines::put_rows;
use std::io::{self, Print};
use vectors::text::line;

// The number of a case, an answer and a count of tiles.
pub fn case(out: &impl Print, number: u64, code: u64, tiles: u64) -> io::Result<()> {
    line(out, b"case # code # tiles # \n", &[number, code, tiles])
}

// Values in rows of `width`, where that is not 0.
pub fn rows(out: &impl Print, values: &[i32], width: usize) -> io::Result<()>
    requires { length values.now ≤ 1024 }
{
    if width == 0 {
        return Ok(());
    }
    let mut lines = [0u8; 12288];
    let end = put_rows(&mut lines, 0, values, width);
    out.write_all(&lines[..end])
}
