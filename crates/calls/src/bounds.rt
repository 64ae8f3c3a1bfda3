// Headers of part `readings` at the bounds.
use crate::file::{File, push_number};
use crate::read::{file_line, header_line};
use std::io::{Result, Write};

const FILES: [&[u8]; 14] = [
    &[2, 0, 2, 0, 1, 1, 0],
    &[3, 0, 3, 0, 1, 1, 2, 2, 0],
    &[3, 0, 3, 0, 1, 1, 2, 0, 2],
    &[3, 0, 3, 0, 1, 1, 0, 3, 0],
    &[3, 0, 3, 0, 1, 1, 0, 2, 2],
    &[3, 0, 3, 0, 3, 1, 1, 2, 0],
    &[3, 0, 3, 0, 1, 1, 0, 0],
    &[3, 0, 2, 1, 1, 0, 128, 0],
    &[3, 0, 2, 1, 1, 0],
    &[65, 0, 1, 128, 0],
    &[65, 0, 128],
    &[0, 9],
    &[2, 129, 0, 1, 0, 1],
    &[2, 2, 1, 0, 0, 0],
];

// Nodes and destination.
const SIZES: [(u32, u32); 12] = [
    (0, 0),
    (1, 0),
    (1, 1),
    (64, 0),
    (64, 63),
    (64, 64),
    (64, 128),
    (65, 0),
    (127, 0),
    (128, 0),
    (16_384, 0),
    (2_097_151, 2_097_151),
];

const LINKS: [u32; 7] = [127, 128, 129, 255, 256, 257, 2_097_151];

fn at_start(out: &impl Print, file: &[u8]) -> Result<()> {
    file_line(out, file)?;
    header_line(out, file, 0)?;
    Ok(())
}

fn of_sizes(nodes: u32, destination: u32) -> Result<File> {
    let mut file = File::new();
    push_number(&mut file, nodes)?;
    push_number(&mut file, destination)?;
    file.write_all(&[0])?;
    Ok(file)
}

fn of_links(links: u32) -> Result<File> {
    let mut file = File::new();
    file.write_all(&[2, 0])?;
    push_number(&mut file, links)?;
    for _ in 0..links.min(257) {
        file.write_all(&[0, 1])?;
    }
    Ok(file)
}

// The order of answers, sizes at their bounds, and link counts of one, two and three bytes: whole, and one byte short.
pub(crate) fn fixed_headers(out: &impl Print) -> Result<()> {
    for file in FILES {
        at_start(out, file)?;
    }
    for (nodes, destination) in SIZES {
        at_start(out, &of_sizes(nodes, destination)?)?;
    }
    for links in LINKS {
        let mut file = of_links(links)?;
        at_start(out, &file)?;
        file.pop();
        at_start(out, &file)?;
    }
    Ok(())
}
