// What code and definitions share: the limits, the kinds of events, and the words of an event's answer.
#![tactic(auto)]

pub mod kinds;
pub mod limits;

pub use kinds::{DELIVER, FAIL, LOSE, SEND};
pub use limits::{ENDS, EVENTS, FILE, FLIGHT, LINKS, NODES, NUMBER, TEXT_MOST};

// The packet that an event handled: its number, or none.
#[derive(Clone, Copy)]
pub enum Handled {
    Packet(u32),
    Nothing,
}

// Where that packet went: out on a lane, to the destination, lost, or stranded at a node without a live link.
#[derive(Clone, Copy)]
pub enum Went {
    Lane(usize),
    Delivered,
    Lost,
    Stranded,
    Nowhere,
}
