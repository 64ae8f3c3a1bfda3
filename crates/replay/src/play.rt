// A chunk's events, run by one burst and written line by line.
ghost use Rattle.std.specs.Prelude.{◌≡◌, ◌+◌, ◌≤◌, ◌<◌};
ghost use Rattle.letters.specs.Puts.{Room, Put};
ghost use Rattle.letters.specs.Digits.{thousand, joined};
ghost use Rattle.replay.specs.ChunkLines.{code_lines};
ghost use Rattle.replay.specs.Plays.{PlayPre, PlayPost};

use crate::chunk::CHUNK;
use bursts::burst;
use letters::{Page, Table};
use lines::event;
use network::Network;

// The record after a chunk, and the page with its lines.
#[derive(Drop)]
pub(crate) struct Played<'a> {
    pub network: Network,
    pub page: Page<'a>,
}

// A line for each event of a chunk, by what the burst gave: their ordinals have the same thousands.
fn lines<'a>(
    page: Page<'a>,
    table: &Table,
    thousands: usize,
    rest: usize,
    answers: &[u32; CHUNK],
    packets: &[u32; CHUNK],
    ways: &[usize; CHUNK],
    count: usize,
) -> Page<'a>
    requires { Room page (code_lines answers.now packets.now ways.now (joined thousands rest) 0 count) × (thousands < thousand) × (rest + count ≤ thousand) }
    ensures { Put page.entry (code_lines answers.now packets.now ways.now (joined thousands rest) 0 count) result }
{
    let mut page = page;
    for i in 0..count {
        page = event(
            page,
            table,
            thousands,
            rest + i,
            answers[i],
            packets[i],
            ways[i],
        );
    }
    page
}

// The burst, then its lines: the record is checked once for the whole chunk.
pub(crate) fn play<'a>(
    network: Network,
    page: Page<'a>,
    table: &Table,
    kinds: &[u32],
    arguments: &[u32],
    thousands: usize,
    rest: usize,
) -> Played<'a>
    requires { PlayPre network kinds.now arguments.now thousands rest page }
    ensures { PlayPost network kinds.now arguments.now (joined thousands rest) page.entry result }
{
    let mut answers = [0u32; CHUNK];
    let mut packets = [0u32; CHUNK];
    let mut ways = [0usize; CHUNK];
    let burst = burst(
        network,
        kinds,
        arguments,
        &mut answers,
        &mut packets,
        &mut ways,
    );
    let page = lines(
        page,
        table,
        thousands,
        rest,
        &answers,
        &packets,
        &ways,
        kinds.len(),
    );
    Played {
        network: burst.network,
        page,
    }
}
