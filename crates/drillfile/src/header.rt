// Reading a header: its sizes, its links, and the record that they open.
ghost use Rattle.std.specs.Prelude.{◌≡◌, ◌≤◌, length};
ghost use Rattle.model.specs.Limits.{links_most};
ghost use Rattle.model.specs.Formed.{sized};
ghost use Rattle.model.specs.File.{accepted};
ghost use Rattle.entries.specs.Outcomes.{answer_in, place_in};
ghost use Rattle.drillfile.specs.Headers.{header_of, refused_header, HeaderPost, from_links, OpeningAnswer};

use crate::answers::Headed;
use arrays::sized;
use entries::{Cursor, Refusal};
use groups::read_number;

// The three numbers that a header begins with.
#[derive(Clone, Copy)]
pub(crate) struct Sizes {
    pub nodes: u32,
    pub destination: u32,
    pub links: u32,
}

// The other side of answer 2.
pub(crate) fn sizes_hold(s: Sizes) -> bool
    ensures { result ≡ sized s.nodes s.destination s.links }
{
    sized(s.nodes as usize, s.destination as usize, s.links as usize)
}

// What an opening answers, as an outcome.
pub(crate) fn outcome(answer: u32, place: usize) -> Result<(), Refusal>
    requires { OpeningAnswer answer place }
    ensures { (answer_in result ≡ answer) × (place_in result ≡ place) }
{
    match answer {
        0 => Ok(()),
        2 => Err(Refusal::BadSizes),
        3 => Err(Refusal::BadLink(place)),
        _ => Err(Refusal::ClosedWalk),
    }
}

// A refused header gives the record that a refused opening gives.
pub(crate) fn refused(refusal: Refusal, from: Cursor) -> Headed
    ensures { result ≡ refused_header refusal from }
{
    let opened = network::open(0, 0, &[]);
    Headed {
        network: opened.network,
        outcome: Err(refusal),
        next: from,
    }
}

// What a list of node numbers opens, with the position after it: 3, 4, or the record.
fn open_list(sizes: Sizes, list: &[u32], next: usize, from: Cursor) -> Headed
    ensures { HeaderPost from.at (accepted (header_of sizes.nodes sizes.destination list.now) next) result }
{
    let opened = network::open(sizes.nodes as usize, sizes.destination as usize, list);
    let network = opened.network;
    if let Err(refusal) = outcome(opened.answer, opened.place) {
        return Headed {
            network,
            outcome: Err(refusal),
            next: from,
        };
    }
    Headed {
        network,
        outcome: Ok(()),
        next: Cursor { at: next },
    }
}

// The links of a header whose sizes hold: 11 at the first number that can't be had, then 3 and 4.
pub(crate) fn read_links(file: &[u8], sizes: Sizes, at: usize, from: Cursor) -> Headed
    requires { (at ≤ length file.now) × (sizes.links ≤ links_most) }
    ensures { HeaderPost from.at (from_links sizes.nodes sizes.destination sizes.links file.now at) result }
{
    let size = 2 * sizes.links as usize;
    let mut list = [0u32; model::ENDS];
    let mut place = at;
    for x in 0..size {
        let Ok(node) = read_number(file, place) else {
            return refused(Refusal::Spoilt(place), from);
        };
        list[x] = node.value;
        place = node.next;
    }
    open_list(sizes, &list[..size], place, from)
}
