// The oldest packet of a lane.
ghost use Rattle.std.specs.Prelude.{◌≡◌, ◌-◌, ◌≤◌, eqb, get_or};
ghost use Rattle.model.specs.Below.{first};
ghost use Rattle.model.specs.Limits.{flight_most};
ghost use Rattle.packets.specs.Moves.{in_use, oldest_of};

use arrays::{BLOCK, Flight, block_has};

// The oldest packet of the lane from a place on.
fn oldest_from(flight: &Flight, flying: usize, x: u16, from: usize) -> Option<usize>
    requires { (flying ≤ flight_most) × (from ≤ flying) }
    ensures { result ≡ in_use flying (first (λ i. eqb (get_or flight.now.lane i 0) x) from (flying - from)) }
{
    for i in from..flying {
        if flight.lane[i] == x {
            return Some(i);
        }
    }
    None
}

// The oldest packet of the lane.
pub fn oldest(flight: &Flight, flying: usize, x: u16) -> Option<usize>
    requires { flying ≤ flight_most }
    ensures { result ≡ oldest_of flight.now.lane flying x }
{
    // counted by hand: over step_by, where the flight is a copy, LLVM looks at eight blocks at once, entry by entry
    let mut base: usize = 0;
    while base < flying {
        if block_has(&flight.lane, base, x) {
            return oldest_from(flight, flying, x, base);
        }
        base += BLOCK;
    }
    None
}
