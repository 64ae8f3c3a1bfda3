// The parts of a record: flat arrays, one entry per link end, link, node or packet, and its counts.
use crate::SLOTS;

// What an opening fixes: the sizes, and by end its node.
#[derive(Clone, Copy)]
pub struct Plan {
    pub node: [u16; model::ENDS],
    pub nodes: usize,
    pub destination: usize,
    pub links: usize,
}

// What the events turn.
#[derive(Clone, Copy)]
pub struct Arrows {
    // by link
    pub live: [bool; model::LINKS],
    // by end: Out, local bit, remote bit, mark
    pub out: [bool; model::ENDS],
    pub local: [bool; model::ENDS],
    pub remote: [bool; model::ENDS],
    pub mark: [bool; model::ENDS],
    // by node
    pub turns: [u32; model::NODES],
}

// The packets in flight, oldest sent first; the tally has their number.
#[derive(Clone, Copy)]
pub struct Flight {
    pub number: [u32; SLOTS],
    pub lane: [u16; SLOTS],
    pub bit: [bool; SLOTS],
}

// What an event counts.
#[derive(Clone, Copy)]
pub struct Tally {
    pub flying: usize,
    pub events: u32,
    pub admitted: u32,
    pub delivered: u32,
    pub lost: u32,
    pub stranded: u32,
}
