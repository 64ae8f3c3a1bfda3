// Drawn headers of part `readings`, and then trouble.
use crate::file::{File, change};
use crate::read::{file_line, header_line};
use crate::readings::NUMBER_BYTES;
use std::io::{Result, Write};
use sums::{Draws, HUGE};

// A good header behind what stands, and an event.
fn push_header(file: &mut File, draws: &mut Draws) -> Result<()> {
    let nodes = 2 + draws.below(5);
    let destination = draws.below(nodes);
    let links = draws.below(5);
    file.write_all(&[nodes as u8, destination as u8, links as u8])?;
    for _ in 0..links {
        let a = draws.below(nodes - 1);
        let b = a + 1 + draws.below(nodes - 1 - a);
        file.write_all(&[a as u8, b as u8])?;
    }
    file.write_all(&[1, 0])
}

fn trouble(file: &mut File, draws: &mut Draws) {
    let t = draws.below(4);
    let at = draws.below(file.len());
    match t {
        1 => change(file, at, NUMBER_BYTES[draws.below(6)]),
        2 => change(file, at, draws.below(8) as u8),
        3 => file.truncate(at),
        _ => {}
    }
}

fn drawn_header(out: &impl Print, draws: &mut Draws) -> Result<()> {
    let before = draws.below(4);
    let mut file = File::new();
    for _ in 0..before {
        file.write_all(&[draws.below(256) as u8])?;
    }
    push_header(&mut file, draws)?;
    trouble(&mut file, draws);
    file_line(out, &file)?;
    let length = file.len();
    for position in [0, before, before + 1, length, length + 1, HUGE] {
        header_line(out, &file, position)?;
    }
    Ok(())
}

pub(crate) fn drawn_headers(out: &impl Print, draws: &mut Draws) -> Result<()> {
    for _ in 0..40 {
        drawn_header(out, draws)?;
    }
    Ok(())
}
