// Part `drills`: whole drills written and read back, then damaged and read as far as they go.
use crate::drawn::drawn;
use crate::file::{File, ROOM, blank, change};
use crate::read::{event_line, file_line, header_line};
use crate::readings::argument;
use crate::writings::{case_into, event_into};
use std::io::{Result, Write};
use sums::Draws;

// Events behind what stands, and the length of all.
fn push_events(
    out: &impl Print,
    draws: &mut Draws,
    part: &mut [u8],
    from: usize,
    count: usize,
) -> Result<usize> {
    let mut length = from;
    for _ in 0..count {
        let kind = 1 + draws.below(4) as u32;
        let a = argument(draws);
        let start = length.min(part.len());
        length = start.saturating_add(event_into(out, &mut part[start..], kind, a)?);
    }
    Ok(length)
}

// An event takes two bytes, so that no file has as many events as it has room.
fn read_events(out: &impl Print, file: &[u8], from: usize) -> Result<()> {
    let mut at = from;
    for _ in 0..ROOM {
        let Some(next) = event_line(out, file, at)? else {
            break;
        };
        at = next;
    }
    Ok(())
}

fn read_back(out: &impl Print, file: &[u8]) -> Result<()> {
    file_line(out, file)?;
    match header_line(out, file, 0)? {
        Some(next) => read_events(out, file, next),
        None => Ok(()),
    }
}

fn copy_of(file: &[u8]) -> Result<File> {
    let mut copy = File::new();
    copy.write_all(file)?;
    Ok(copy)
}

// The last byte as if one more followed, and a 0, which the shortest form has not.
fn not_shortest(file: &[u8]) -> Result<File> {
    let mut long = copy_of(file)?;
    if let Some(last) = long.last_mut() {
        *last = last.wrapping_add(128);
    }
    long.write_all(&[0])?;
    Ok(long)
}

fn read_changed(out: &impl Print, file: &[u8], at: usize, byte: u8) -> Result<()> {
    let mut copy = copy_of(file)?;
    change(&mut copy, at, byte);
    read_back(out, &copy)
}

fn read_longer(out: &impl Print, file: &[u8], more: &[u8]) -> Result<()> {
    let mut copy = copy_of(file)?;
    copy.write_all(more)?;
    read_back(out, &copy)
}

fn read_damaged(out: &impl Print, draws: &mut Draws, file: &[u8]) -> Result<()> {
    read_back(out, &file[..draws.below(file.len())])?;
    let high = draws.below(file.len());
    read_changed(out, file, high, 128 + draws.below(128) as u8)?;
    let any = draws.below(file.len());
    read_changed(out, file, any, draws.below(256) as u8)?;
    read_back(out, &not_shortest(file)?)?;
    read_longer(out, file, &[5, 0])?;
    read_longer(out, file, &[129, 129, 129, 1])
}

fn drill(out: &impl Print, draws: &mut Draws) -> Result<()> {
    let c = drawn(draws);
    let mut part = blank();
    let header = case_into(out, &mut part, &c)?;
    // Nothing is written of a refused header.
    if header == 0 {
        return Ok(());
    }
    let count = draws.below(12);
    let length = push_events(out, draws, &mut part, header, count)?;
    let file = &part[..length.min(ROOM)];
    read_back(out, file)?;
    read_damaged(out, draws, file)
}

pub(crate) fn part(out: &impl Print, draws: &mut Draws) -> Result<()> {
    for _ in 0..120 {
        drill(out, draws)?;
    }
    Ok(())
}
