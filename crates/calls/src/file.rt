// The bytes of a file, or of a part to be lent.
use arrayvec::ArrayVec;
use drillfile::Groups;
use std::io::{Result, Write};

// More than any part of the calls has, and than any drill that is written.
pub(crate) const ROOM: usize = 700;

pub(crate) type File = ArrayVec<u8, ROOM>;

// A part to be lent: no byte is the same as its neighbours.
pub(crate) fn blank() -> [u8; ROOM] {
    let mut part = [0; ROOM];
    for (i, byte) in part.iter_mut().enumerate() {
        *byte = ((37 * i + 11) % 256) as u8;
    }
    part
}

// A byte that stands becomes another.
pub(crate) fn change(file: &mut File, at: usize, byte: u8) {
    if let Some(old) = file.get_mut(at) {
        *old = byte;
    }
}

// The bytes of a number behind what stands.
pub(crate) fn push_number(file: &mut File, value: u32) -> Result<()> {
    match drillfile::split(value) {
        Some(Groups::One(a)) => file.write_all(&[a]),
        Some(Groups::Two(a, b)) => file.write_all(&[a, b]),
        Some(Groups::Three(a, b, c)) => file.write_all(&[a, b, c]),
        None => Ok(()),
    }
}
