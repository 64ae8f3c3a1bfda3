// The lines of the text, written on a page that has room for them.
// Public for `replay` alone, so these functions may require that room: docs/EXCEPTIONS.md.
#![tactic(auto)]

mod parts;

ghost use Rattle.std.specs.Prelude.{◌++◌, ◌≡◌, ◌≤◌, ◌<◌, length};
ghost use Rattle.std.proofs.Math.Option.{some};
ghost use Rattle.model.specs.Limits.{nodes_most};
ghost use Rattle.model.specs.Text.{ascii, digits, spoilt_line, refused_line};
ghost use Rattle.network.specs.View.{view};
ghost use Rattle.letters.specs.Puts.{Room, Put};
ghost use Rattle.letters.specs.Digits.{thousand, joined};
ghost use Rattle.lines.specs.Codes.{code_line};
ghost use Rattle.lines.specs.Lines.{row, ending_of};

use letters::{Page, Table};
use network::Network;
use parts::{answer, packet, way};

// The answer number of a spoilt file.
pub const SPOILT: usize = 11;

// An event's line, by what the burst gave for it.
pub fn event<'a>(
    page: Page<'a>,
    table: &Table,
    thousands: usize,
    rest: usize,
    answered: u32,
    handled: u32,
    went: usize,
) -> Page<'a>
    requires { Room page (code_line (joined thousands rest) answered handled went) × (thousands < thousand) × (rest < thousand) }
    ensures { Put page.entry (code_line (joined thousands rest) answered handled went) result }
{
    let page = page.million(table, thousands, rest);
    let page = answer(page, answered);
    let page = packet(page, table, handled);
    way(page, table, went)
}

// A number of a row.
fn field<'a>(page: Page<'a>, n: usize) -> Page<'a>
    requires { Room page (ascii " " ++ digits n) }
    ensures { Put page.entry (ascii " " ++ digits n) result }
{
    page.bytes([b' ']).number(n)
}

// A word and numbers.
fn row<'a>(page: Page<'a>, w: &[u8], list: &[usize]) -> Page<'a>
    requires { Room page (row w.now list.now (length list.now)) }
    ensures { Put page.entry (row w.now list.now (length list.now)) result }
{
    let mut page = page.word(w);
    for &n in list {
        page = field(page, n);
    }
    page.bytes([b'\n'])
}

// The only line where the header is refused, or the file too long.
pub fn refused<'a>(page: Page<'a>, answer: usize, place: usize) -> Page<'a>
    requires { Room page (refused_line answer place) }
    ensures { Put page.entry (refused_line answer place) result }
{
    row(page, b"refused", &[answer, place])
}

// The turns stand in the record as they are, so no list is made of them.
fn turns<'a>(page: Page<'a>, turns: &[u32; model::NODES], nodes: usize) -> Page<'a>
    requires { Room page (row (ascii "turns") turns.now nodes) × (nodes ≤ nodes_most) }
    ensures { Put page.entry (row (ascii "turns") turns.now nodes) result }
{
    let mut page = page.word(b"turns");
    for &n in &turns[..nodes] {
        page = field(page, n as usize);
    }
    page.bytes([b'\n'])
}

// The two last lines.
pub fn ending<'a>(page: Page<'a>, n: Network) -> Page<'a>
    requires { Room page (ending_of (view n)) × (n.plan.nodes ≤ nodes_most) }
    ensures { Put page.entry (ending_of (view n)) result }
{
    let total = [
        n.tally.admitted as usize,
        n.tally.delivered as usize,
        n.tally.lost as usize,
        n.tally.stranded as usize,
        n.tally.flying,
    ];
    let page = row(page, b"total", &total);
    turns(page, &n.arrows.turns, n.plan.nodes)
}

// The line of a spoilt event, then the last two.
pub fn spoilt<'a>(page: Page<'a>, place: usize, n: Network) -> Page<'a>
    requires { Room page (spoilt_line (some place) ++ ending_of (view n)) × (n.plan.nodes ≤ nodes_most) }
    ensures { Put page.entry (spoilt_line (some place) ++ ending_of (view n)) result }
{
    let page = row(page, b"spoilt", &[SPOILT, place]);
    ending(page, n)
}
