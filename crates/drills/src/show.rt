// A text whole, or in short.
ghost use Rattle.std.specs.Prelude.{◌≤◌, length};

use std::io::Result;
use sums::of_bytes;

// A text of more bytes is shown in short.
const WHOLE: usize = 1_000;

// Where the last two lines start: a line starts behind each newline, and the end is such a start.
fn last_two(text: &[u8]) -> usize
    ensures { result ≤ length text.now }
{
    let mut first = 0;
    let mut second = 0;
    let mut third = 0;
    for (i, &byte) in text.iter().enumerate() {
        if byte == b'\n' {
            first = second;
            second = third;
            third = i + 1;
        }
    }
    first
}

pub(crate) fn text(out: &impl Print, bytes: &[u8]) -> Result<()> {
    if bytes.len() <= WHOLE {
        return out.write_all(bytes);
    }
    println!(out; "long {} {}", bytes.len(), of_bytes(bytes))?;
    out.write_all(&bytes[last_two(bytes)..])
}
