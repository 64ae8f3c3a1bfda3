// The calls of docs/CALLS.md on records, good and spoilt, made from one seed; each part starts its own generator.
#![tactic(auto)]

mod build;
mod event;
mod limit;
mod records;
mod sizes;
mod spoil;

use std::io;
use sums::Draws;

const SEED: usize = 1;

fn main(rt: HostRuntime) -> io::Result<()> {
    records::part(&rt, &mut Draws::start(SEED, 1))?;
    limit::part(&rt, &mut Draws::start(SEED, 4))
}
