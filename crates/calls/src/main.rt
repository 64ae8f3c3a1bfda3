// The calls of docs/CALLS.md that open, write and read, made from one seed; each part starts its own generator.
#![tactic(auto)]

mod bounds;
mod drawn;
mod drills;
mod file;
mod headers;
mod openings;
mod read;
mod readings;
mod rows;
mod writings;

use std::io;
use sums::Draws;

const SEED: usize = 1;

fn main(rt: HostRuntime) -> io::Result<()> {
    openings::part(&rt, &mut Draws::start(SEED, 0))?;
    writings::part(&rt, &mut Draws::start(SEED, 2))?;
    readings::part(&rt, &mut Draws::start(SEED, 3))?;
    drills::part(&rt, &mut Draws::start(SEED, 5))
}
