// What the calls of this crate give back; specs/ says what each stands for.

// A number that was read, and the position after it.
#[derive(Clone, Copy, Debug, PartialEq, Eq)]
pub struct Number {
    pub value: u32,
    pub next: usize,
}

// A number that can't be had, by its place.
#[derive(Clone, Copy, Debug, PartialEq, Eq)]
pub struct Spoilt {
    pub place: usize,
}

// The bytes of a number.
#[derive(Clone, Copy, Debug, PartialEq, Eq)]
pub enum Groups {
    One(u8),
    Two(u8, u8),
    Three(u8, u8, u8),
}
