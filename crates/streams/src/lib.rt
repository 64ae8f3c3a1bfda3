// Reading a stream into a lent part.
#![tactic(auto)]

ghost use Rattle.std.specs.Prelude.{◌≡◌, ◌+◌, ◌<◌, ◌≤◌, length, take, IfOk};
ghost use Rattle.std.specs.Io.KnownBytes.{Consumes, IsAtEnd};
ghost use Rattle.model.specs.Limits.{file_most};

use std::io::{Read, Result};

// Room for a drill file: one byte more than it may have, so that a longer one is seen.
pub const INPUT: usize = model::FILE + 1;

// That room, with nothing in it.
pub fn input() -> [u8; INPUT]
    ensures { file_most + 1 ≡ length result }
{
    [0; INPUT]
}

// Reads until the part is full or the stream ends: how many bytes stand at the part's front.
pub fn read_full<R: Read>(from: &mut R, part: &mut [u8]) -> Result<usize>
    ensures within { IfOk result (λ n. n ≤ length part.new) }

    // Where the stream's bytes are known, these are the first of them, and where they do not fill the part, all of them.
    ensures bytes { IfOk result (λ n. Consumes (R.remaining from.old) (R.remaining from.new) (take n part.new)) }
    ensures end { IfOk result (λ n. n < length part.new → IsAtEnd (R.remaining from.new)) }
{
    let mut done: usize = 0;
    while done < part.len() {
        let n = from.read(&mut part[done..])?;
        if n == 0 {
            return Ok(done);
        }
        done += n;
    }
    Ok(done)
}
