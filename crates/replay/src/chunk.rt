// Events read some at a time, so that the record's check is paid once for all of them.
ghost use Rattle.std.specs.Prelude.{◌≡◌, ◌≤◌, length};
ghost use Rattle.replay.specs.Chunks.{chunk, stopped_at, GatherPost};

use letters::THOUSAND;

// The ordinals of a chunk have the same thousands.
pub(crate) const CHUNK: usize = THOUSAND;

// Why no more events were read.
#[derive(Clone, Copy)]
pub(crate) enum Stop {
    More,
    End,
    Spoilt(usize),
}

#[derive(Clone, Copy)]
pub(crate) struct Gathered {
    pub count: usize,
    pub next: usize,
    pub stop: Stop,
}

fn stopped(count: usize, next: usize, stop: Stop) -> Gathered
    ensures { result ≡ stopped_at count next stop }
{
    Gathered { count, next, stop }
}

// At most so many events from a position on, by kind and argument.
pub(crate) fn gather(
    file: &[u8],
    from: usize,
    most: usize,
    kinds: &mut [u32; CHUNK],
    arguments: &mut [u32; CHUNK],
) -> Gathered
    requires { (from ≤ length file.now) × (most ≤ chunk) × (length kinds.old ≡ chunk) × (length arguments.old ≡ chunk) }
    ensures { GatherPost file.now from most kinds.new arguments.new result }
{
    let mut at = from;
    for i in 0..most {
        let got = reader::next_at(file, at);
        match got.event {
            Ok(Some(event)) => {
                kinds[i] = event.kind;
                arguments[i] = event.argument;
                at = got.next.at;
            }
            Ok(None) => return stopped(i, at, Stop::End),
            Err(spoilt) => return stopped(i, at, Stop::Spoilt(spoilt.place)),
        }
    }
    stopped(most, at, Stop::More)
}
