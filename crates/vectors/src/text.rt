// A line of text with numbers in it.
use std::io::{self, Print};

// Writes the text, with the next of the numbers in decimal in place of each `#`.
pub fn line(out: &impl Print, text: &[u8], numbers: &[u64]) -> io::Result<()> {
    let mut next = numbers.iter();
    for byte in text {
        if *byte != b'#' {
            out.write_all(&[*byte])?;
        } else if let Some(number) = next.next() {
            print!(out; "{number}")?;
        }
    }
    Ok(())
}
