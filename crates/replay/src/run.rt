// The events of a file, chunk by chunk, and the last lines.
ghost use Rattle.std.specs.Prelude.{◌≡◌};
ghost use Rattle.letters.specs.Puts.{Put};
ghost use Rattle.replay.specs.Runs.{text_of, RunPre};

use crate::chunk::{CHUNK, Stop, gather};
use crate::play::play;
use letters::{Page, Table};
use lines::{ending, spoilt};
use network::Network;

// The text of the events from a position on, from a record just opened.
pub(crate) fn run<'a>(
    page: Page<'a>,
    file: &[u8],
    from: usize,
    opened: Network,
    table: &Table,
) -> Page<'a>
    requires { RunPre file.now from opened page }
    ensures { Put page.entry (text_of file.now from opened) result }
{
    let mut network = opened;
    let mut page = page;
    let mut at = from;
    let mut thousands: usize = 0;
    let mut rest: usize = 1;
    let mut kinds = [0u32; CHUNK];
    let mut arguments = [0u32; CHUNK];
    loop {
        let gathered = gather(file, at, CHUNK - rest, &mut kinds, &mut arguments);
        let count = gathered.count;
        let stop = gathered.stop;
        at = gathered.next;
        let played = play(
            network,
            page,
            table,
            &kinds[..count],
            &arguments[..count],
            thousands,
            rest,
        );
        network = played.network;
        page = played.page;
        thousands += 1;
        rest = 0;
        match stop {
            Stop::More => {}
            Stop::End => return ending(page, network),
            Stop::Spoilt(place) => return spoilt(page, place, network),
        }
    }
}
