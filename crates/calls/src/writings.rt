// Part `writings`: events and headers into lent parts of every length.
ghost use Rattle.std.specs.Prelude.{◌<◌};

use crate::drawn::{Case, drawn};
use crate::file::{ROOM, blank};
use crate::rows::{ROWS, opening};
use drillfile::Refusal;
use std::io::Result;
use sums::{Draws, of_bytes};

const KINDS: [u32; 7] = [0, 1, 2, 3, 4, 5, 4_294_967_295];

const ARGUMENTS: [u32; 10] = [
    0,
    1,
    127,
    128,
    16_383,
    16_384,
    2_097_150,
    2_097_151,
    2_097_152,
    4_294_967_295,
];

// The answer, the place and the count of a writing.
fn told(w: std::result::Result<usize, Refusal>) -> (u32, usize, usize) {
    match w {
        Ok(count) => (0, 0, count),
        Err(refusal) => (refusal.answer(), refusal.place(), 0),
    }
}

// An event is written into a part, its line printed, and the count of its bytes given.
pub(crate) fn event_into(
    out: &impl Print,
    part: &mut [u8],
    kind: u32,
    argument: u32,
) -> Result<usize> {
    let (answer, _, count) = told(drillfile::write_event(part, kind, argument));
    let lent = part.len();
    let sum = of_bytes(part);
    println!(out; "w {kind} {argument} {lent} {answer} {count} {sum}")?;
    Ok(count)
}

// The same of the header of an opening.
pub(crate) fn case_into(out: &impl Print, part: &mut [u8], c: &Case) -> Result<usize> {
    let (answer, place, count) = told(drillfile::write_header(
        part,
        c.nodes,
        c.destination,
        &c.list,
    ));
    let lent = part.len();
    let sum = of_bytes(part);
    print!(out; "h {} {} {} {lent} ", c.nodes, c.destination, c.list.len())?;
    println!(out; "{answer} {place} {count} {sum}")?;
    Ok(count)
}

fn event_line(out: &impl Print, kind: u32, argument: u32, lent: usize) -> Result<()> {
    let mut part = blank();
    event_into(out, &mut part[..lent.min(ROOM)], kind, argument)?;
    Ok(())
}

fn header_line(out: &impl Print, c: &Case, lent: usize) -> Result<()> {
    let mut part = blank();
    case_into(out, &mut part[..lent.min(ROOM)], c)?;
    Ok(())
}

// Each kind with each argument and each length up to 6.
fn events(out: &impl Print) -> Result<()> {
    for kind in KINDS {
        for argument in ARGUMENTS {
            for lent in 0..7 {
                event_line(out, kind, argument, lent)?;
            }
        }
    }
    Ok(())
}

fn rows(out: &impl Print) -> Result<()> {
    for row in ROWS {
        let c = opening(row);
        for lent in [0, 3, 520] {
            header_line(out, &c, lent)?;
        }
    }
    Ok(())
}

// Every length up to two too many.
fn small(out: &impl Print, c: Case) -> Result<()> {
    for lent in 0..c.list.len() + 6 {
        header_line(out, &c, lent)?;
    }
    Ok(())
}

// Links of two nodes, two numbers a link, with what their header needs.
fn large(out: &impl Print, numbers: u32, need: usize) -> Result<()>
    requires some { 0 < need }
    requires most { need < 1000 }
{
    let c = opening([2, 0, numbers, 0, 999, 0]);
    for lent in [1, need - 1, need, need + 1, need + 2] {
        header_line(out, &c, lent)?;
    }
    Ok(())
}

fn one_drawn(out: &impl Print, draws: &mut Draws) -> Result<()> {
    let c = drawn(draws);
    let length = c.list.len();
    for lent in [length + 2, length + 3, length + 5] {
        header_line(out, &c, lent)?;
    }
    Ok(())
}

pub(crate) fn part(out: &impl Print, draws: &mut Draws) -> Result<()> {
    events(out)?;
    rows(out)?;
    small(out, opening([1, 0, 0, 0, 999, 0]))?;
    small(out, opening([2, 1, 2, 0, 999, 0]))?;
    small(out, opening([3, 2, 4, 3, 999, 0]))?;
    small(out, opening([64, 63, 6, 64, 999, 0]))?;
    large(out, 254, 257)?;
    large(out, 256, 260)?;
    large(out, 510, 514)?;
    large(out, 512, 516)?;
    for _ in 0..20 {
        one_drawn(out, draws)?;
    }
    Ok(())
}
