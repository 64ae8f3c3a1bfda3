// The limits of the code, each proved in crates/arrays to be that of specs/Limits.antt. No other file names one by its digits.
pub const NODES: usize = 64;

pub const LINKS: usize = 256;

pub const ENDS: usize = 2 * LINKS;

pub const FLIGHT: usize = 256;

pub const EVENTS: u32 = 1_000_000;

pub const FILE: usize = 65_536;

pub const NUMBER: u32 = 2_097_151;

pub const LINE_MOST: usize = 21;

pub const LAST_LINES_MOST: usize = 580;

pub const TEXT_MOST: usize = LINE_MOST * (FILE / 2) + LAST_LINES_MOST;
