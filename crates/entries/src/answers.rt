// What the calls of this crate give back; specs/ says what each stands for.
ghost use Rattle.std.specs.Prelude.{◌≡◌};
ghost use Rattle.entries.specs.Outcomes.{spoilt_at, answer_of, place_of};

use groups::Spoilt;

// A position in a file.
#[derive(Clone, Copy, Debug, PartialEq, Eq)]
pub struct Cursor {
    pub at: usize,
}

// An event of a file.
#[derive(Clone, Copy, Debug, PartialEq, Eq)]
pub struct Event {
    pub kind: u32,
    pub argument: u32,
}

// The event at a position, none at the file's end, or the place of what is spoilt; and the position after.
#[derive(Clone, Copy, Debug, PartialEq, Eq)]
pub struct Got {
    pub event: Result<Option<Event>, Spoilt>,
    pub next: Cursor,
}

impl Got {
    // What is spoilt leaves the position where it was asked.
    pub(crate) fn spoilt(place: usize, from: Cursor) -> Got
        ensures { result ≡ spoilt_at place from }
    {
        Got {
            event: Err(Spoilt { place }),
            next: from,
        }
    }
}

// Why a header is not read, or nothing is written. A link has its number, what is spoilt its offset.
#[derive(Clone, Copy, Debug, PartialEq, Eq)]
pub enum Refusal {
    BadSizes,
    BadLink(usize),
    ClosedWalk,
    NoSuch,
    Spoilt(usize),
    TooShort,
}

impl Refusal {
    // Its answer number.
    pub fn answer(self) -> u32
        ensures { result ≡ answer_of self }
    {
        match self {
            Refusal::BadSizes => 2,
            Refusal::BadLink(_) => 3,
            Refusal::ClosedWalk => 4,
            Refusal::NoSuch => 6,
            Refusal::Spoilt(_) => 11,
            Refusal::TooShort => 12,
        }
    }

    // Its place, 0 where it names none.
    pub fn place(self) -> usize
        ensures { result ≡ place_of self }
    {
        match self {
            Refusal::BadLink(place) | Refusal::Spoilt(place) => place,
            _ => 0,
        }
    }
}
