// The record, by its parts, and what calls hand back.
use arrays::{Arrows, Flight, Plan, Tally};
use model::{Handled, Went};

#[derive(Clone, Copy)]
pub struct Network {
    // what an opening fixes
    pub plan: Plan,
    // what the events turn
    pub arrows: Arrows,
    // the packets in flight
    pub flight: Flight,
    pub tally: Tally,
}

// What a call hands back.
#[derive(Clone, Copy)]
pub struct Moved {
    pub network: Network,
    pub answer: u32,
    pub handled: Handled,
    pub went: Went,
}

// What a burst hands back: so many calls were made.
#[derive(Clone, Copy)]
pub struct Burst {
    pub network: Network,
    pub count: usize,
}
