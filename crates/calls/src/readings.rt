// Part `readings`: numbers, events and headers at any position.
ghost use Rattle.std.specs.Prelude.{◌<◌, ◌^◌};

use crate::bounds::fixed_headers;
use crate::file::{File, push_number};
use crate::headers::drawn_headers;
use crate::read::{event_line, file_line, number_line};
use std::io::{Result, Write};
use sums::{Draws, HUGE};

pub(crate) const NUMBER_BYTES: [u8; 6] = [0, 1, 127, 128, 129, 255];

const EVENT_BYTES: [u8; 6] = [0, 1, 4, 5, 128, 255];

// The lengths of short files, and how many files of six bytes there are of each.
const SHORT: [(usize, usize); 4] = [(0, 1), (1, 6), (2, 36), (3, 216)];

fn short(six: &[u8; 6], length: usize, index: usize) -> Result<File> {
    let mut file = File::new();
    let mut rest = index;
    for _ in 0..length {
        file.write_all(&[six[rest % 6]])?;
        rest /= 6;
    }
    Ok(file)
}

fn every_short<F: Fn(&[u8]) -> Result<()>>(six: &[u8; 6], line: F) -> Result<()>
    requires { F.IsAlwaysCallable line }
{
    for (length, count) in SHORT {
        for index in 0..count {
            line(&short(six, length, index)?)?;
        }
    }
    Ok(())
}

// Each position up to two past the end, and two far past it.
fn every_position<F: Fn(usize) -> Result<()>>(length: usize, line: F) -> Result<()>
    requires callable { F.IsAlwaysCallable line }
    requires small { length < 2 ^ 63 }
{
    for position in 0..length + 3 {
        line(position)?;
    }
    line(1000)?;
    line(HUGE)
}

fn every_number(out: &impl Print, file: &[u8]) -> Result<()> {
    every_position(file.len(), |at| number_line(out, file, at))
}

fn every_event(out: &impl Print, file: &[u8]) -> Result<()> {
    every_position(file.len(), |at| {
        event_line(out, file, at)?;
        Ok(())
    })
}

fn any_byte(draws: &mut Draws) -> u8 {
    match draws.below(4) {
        0 => NUMBER_BYTES[draws.below(6)],
        1 => 1 + draws.below(4) as u8,
        2 => draws.below(256) as u8,
        _ => draws.below(64) as u8,
    }
}

// An argument of one, two or three bytes.
pub(crate) fn argument(draws: &mut Draws) -> u32 {
    match draws.below(3) {
        0 => draws.below(128) as u32,
        1 => 128 + draws.below(16_256) as u32,
        _ => 16_384 + draws.below(2_080_768) as u32,
    }
}

fn any_file(out: &impl Print, draws: &mut Draws) -> Result<()> {
    let length = 16 + draws.below(9);
    let mut file = File::new();
    for _ in 0..length {
        file.write_all(&[any_byte(draws)])?;
    }
    file_line(out, &file)?;
    every_number(out, &file)?;
    every_event(out, &file)
}

fn good_file(out: &impl Print, draws: &mut Draws) -> Result<()> {
    let mut file = File::new();
    for _ in 0..8 {
        push_number(&mut file, 1 + draws.below(4) as u32)?;
        push_number(&mut file, argument(draws))?;
    }
    file_line(out, &file)?;
    every_event(out, &file)
}

pub(crate) fn part(out: &impl Print, draws: &mut Draws) -> Result<()> {
    every_short(&NUMBER_BYTES, |file| number_line(out, file, 0))?;
    every_short(&EVENT_BYTES, |file| {
        event_line(out, file, 0)?;
        Ok(())
    })?;
    for _ in 0..6 {
        any_file(out, draws)?;
    }
    for _ in 0..4 {
        good_file(out, draws)?;
    }
    drawn_headers(out, draws)?;
    fixed_headers(out)
}
