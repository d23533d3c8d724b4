// The bench program: reads one layer with its map and kernel from standard input, and writes its answer to standard output.
#![tactic(auto)]

ghost use Rattle.std.specs.Prelude.{◌≤◌, ◌<◌, length, take, IfOk};
ghost use Rattle.std.specs.Io.KnownBytes.{Consumes, IsAtEnd};

use bench_text::answer::answer;
use std::io::{self, Print, Read};

// Reads until the buffer is full or the input ends, and hands back how many bytes were read: they stand at the front of the buffer. After an error
// nothing is said of the buffer and of what is left of the input.
fn read_full<R: Read>(reader: &mut R, buffer: &mut [u8]) -> io::Result<usize>
    ensures bound { IfOk result (λ count. count ≤ length buffer.new) }
    ensures bytes { IfOk result (λ count. Consumes (R.remaining reader.old) (R.remaining reader.new) (take count buffer.new)) }
    ensures end { IfOk result (λ count. count < length buffer.new → IsAtEnd (R.remaining reader.new)) }
{
    // A `while`: how many bytes a read takes, and so how many reads there are, is not known before.
    let mut count = 0;
    while count < buffer.len() {
        let more = reader.read(&mut buffer[count..])?;
        if more == 0 {
            return Ok(count);
        }
        count += more;
    }
    Ok(count)
}

// One byte more than 16 KiB is read, which tells whether the input is longer.
fn main(rt: HostRuntime) -> io::Result<()> {
    let mut input = [0u8; 16385];
    let count = read_full(&mut rt.reader(), &mut input)?;
    let mut lines = [0u8; 16384];
    let end = answer(&mut lines, &input[..count]);
    rt.write_all(&lines[..end])
}
