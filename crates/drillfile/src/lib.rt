// Drill files: headers read and written at a position of a slice that is lent; events and numbers, handed on.
#![tactic(auto)]

mod answers;
mod header;
mod writing;

ghost use Rattle.std.specs.Prelude.{◌≡◌};
ghost use Rattle.model.specs.File.{read_header};
ghost use Rattle.model.specs.Writing.{write_header};
ghost use Rattle.entries.specs.Outcomes.{holding};
ghost use Rattle.drillfile.specs.Headers.{header_of, HeaderPost};

pub use answers::Headed;
pub use entries::{Cursor, Event, Got, Refusal, read_event, write_event};
pub use groups::{Groups, Number, Spoilt, read_number, split};
use header::Sizes;

// The header at a position: its three numbers (11), 2, its links (11), 3, 4.
pub fn read_header(file: &[u8], from: Cursor) -> Headed
    ensures { HeaderPost from.at (read_header file.now from.at) result }
{
    // a position past the end counts as the end
    let at = from.at.min(file.len());
    let Ok(nodes) = read_number(file, at) else {
        return header::refused(Refusal::Spoilt(at), from);
    };
    let Ok(destination) = read_number(file, nodes.next) else {
        return header::refused(Refusal::Spoilt(nodes.next), from);
    };
    let Ok(links) = read_number(file, destination.next) else {
        return header::refused(Refusal::Spoilt(destination.next), from);
    };
    let sizes = Sizes {
        nodes: nodes.value,
        destination: destination.value,
        links: links.value,
    };
    if !header::sizes_hold(sizes) {
        return header::refused(Refusal::BadSizes, from);
    }
    header::read_links(file, sizes, links.next, from)
}

// A header at the front of a part, and how many bytes it takes: 2, 3, 4, then 12. A refusal changes nothing.
pub fn write_header(
    out: &mut [u8],
    nodes: usize,
    destination: usize,
    list: &[u32],
) -> Result<usize, Refusal>
    ensures { holding result out.new ≡ write_header (header_of nodes destination list.now) out.old }
{
    let opened = network::open(nodes, destination, list);
    header::outcome(opened.answer, opened.place)?;
    let sizes = [nodes as u32, destination as u32, (list.len() / 2) as u32];
    let first = writing::total_width(&sizes);
    let count = first + writing::total_width(list);
    if out.len() < count {
        return Err(Refusal::TooShort);
    }
    writing::put_numbers(out, 0, &sizes);
    writing::put_numbers(out, first, list);
    Ok(count)
}
