// What the packets tell an event.
ghost use Rattle.std.specs.Prelude.{◌≡◌, None};

use crate::Told;

// What they tell, and the place of the oldest.
#[derive(Clone, Copy)]
pub struct Asked {
    pub told: Told,
    pub at: usize,
}

// No packet, and so many on the link.
pub fn none(gone: usize) -> Asked
    ensures { result ≡ record { told = record { oldest = None; gone = gone }; at = 0 } }
{
    Asked {
        told: Told { oldest: None, gone },
        at: 0,
    }
}
