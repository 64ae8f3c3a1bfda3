// The arrays of a record: what they show a reader, and the numbers that stand in them.
#![tactic(auto)]

mod asked;
mod block;
pub mod kinds;
pub mod limits;
mod number;
mod record;
mod sizes;

pub use asked::{Asked, none};
pub use block::{BLOCK, block_has};
pub use number::other;
pub use record::{Arrows, Flight, Plan, Tally};
pub use sizes::sized;

// Packets move in blocks of so many; slots past the limit are room for that.
pub const MOVES: usize = 32;

pub const SLOTS: usize = model::FLIGHT + MOVES;

// A packet as an event is told of it.
#[derive(Clone, Copy)]
pub struct Oldest {
    pub number: u32,
    pub bit: bool,
}

// What the packets in flight tell an event: the oldest of its lane, or how many are on its link; a send nothing.
#[derive(Clone, Copy)]
pub struct Told {
    pub oldest: Option<Oldest>,
    pub gone: usize,
}
