// The kinds of events, as a drill file numbers them, each proved in crates/arrays to be that of specs/File.antt.
pub const SEND: u32 = 1;

pub const DELIVER: u32 = 2;

pub const LOSE: u32 = 3;

pub const FAIL: u32 = 4;
