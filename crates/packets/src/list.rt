// The packets in flight: taking out, keeping and putting in.
ghost use Rattle.std.specs.Prelude.{◌≡◌, false, List, Bool, ℕ, [], ◌∷◌, ◌++◌, ◌+◌, ◌≤◌, ◌<◌, length, set};
ghost use Rattle.model.specs.Limits.{ends_most, flight_most};
ghost use Rattle.model.specs.Fail.{off};
ghost use Rattle.arrays.specs.Flight.{moves, Slots, packets, flying_in};
ghost use Rattle.packets.specs.Moves.{Moved, Removed, Stays};

use arrays::{Flight, MOVES, SLOTS};

// One block of entries moves down by one place.
fn move_down<T: Copy>(a: &mut [T; SLOTS], from: usize)
    requires { from < flight_most }
    ensures { (d : T) → Moved d from (from + moves) a.old a.new }
{
    for k in 0..MOVES {
        a[from + k] = a[from + k + 1];
    }
}

// The entry at place i goes.
fn remove<T: Copy>(a: &mut [T; SLOTS], i: usize, last: usize)
    requires { (i ≤ last) × (last < flight_most) }
    ensures { (d : T) → Removed d i last a.old a.new }
{
    for j in (i..last).step_by(MOVES) {
        move_down(a, j);
    }
}

// The packet at place i goes; the order of the others stays.
pub fn take_out(flight: &mut Flight, i: usize, last: usize)
    requires { (i ≤ last) × (last < flight_most) }
    ensures number { Removed 0 i last flight.old.number flight.new.number }
    ensures lane { Removed 0 i last flight.old.lane flight.new.lane }
    ensures bit { Removed false i last flight.old.bit flight.new.bit }
    ensures long { Slots flight.new }
{
    remove(&mut flight.number, i, last);
    remove(&mut flight.lane, i, last);
    remove(&mut flight.bit, i, last);
}

// A packet becomes the newest in flight.
pub fn put(flight: &mut Flight, flying: usize, n: u32, x: usize, b: bool)
    requires { (flying < flight_most) × (x < ends_most) }
    ensures packets { flying_in flight.new (flying + 1) ≡ flying_in flight.old flying ++ (record { number = n; lane = x; bit = b } ∷ []) }
    ensures is { flight.new ≡ record {
      number = set flight.old.number flying n;
      lane = set flight.old.lane flying x;
      bit = set flight.old.bit flying b;
    } }
    ensures long { Slots flight.new }
{
    flight.number[flying] = n;
    flight.lane[flying] = x as u16;
    flight.bit[flying] = b;
}

// The packets on no lane of link l stay, in their order, each moved at most once; gives how many.
pub fn keep_off(flight: &mut Flight, flying: usize, l: usize) -> usize
    requires { flying ≤ flight_most }
    ensures within { result ≤ flying }
    ensures packets { flying_in flight.new result ≡ off l (flying_in flight.old flying) }
    ensures stays { Stays result flight.old flight.new }
    ensures long { Slots flight.new }
{
    let mut w: usize = 0;
    for j in 0..flying {
        let x = flight.lane[j];
        if usize::from(x) / 2 != l {
            let a = flight.number[j];
            let b = flight.bit[j];
            flight.number[w] = a;
            flight.lane[w] = x;
            flight.bit[w] = b;
            w += 1;
        }
    }
    w
}

// How many of the packets are on link l.
pub fn on_link(lanes: &[u16], l: usize) -> usize
    ensures { (number : List ℕ) (bit : List Bool) → result + length (off l (packets number lanes.now bit (length lanes.now))) ≡ length lanes.now }
{
    let mut gone: usize = 0;
    for &x in lanes {
        if usize::from(x) / 2 == l {
            gone += 1;
        }
    }
    gone
}
