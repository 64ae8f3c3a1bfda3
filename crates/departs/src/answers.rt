// The numbers of an event's refusals.
pub const DONE: u32 = 0;

pub const NOT_FORMED: u32 = 1;

pub const NO_MORE_EVENTS: u32 = 5;

pub const NO_SUCH: u32 = 6;

pub const LINK_DOWN: u32 = 7;

pub const LANE_EMPTY: u32 = 8;

pub const FLIGHT_FULL: u32 = 9;

pub const OUT_OF_STEP: u32 = 10;
