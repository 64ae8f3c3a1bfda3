// The packets of a record into the slots of a burst, and those that still stand back again.
// Public for `queued` and `bursts` alone, so these functions may require what the check has told: docs/EXCEPTIONS.md.
#![tactic(auto)]

ghost use Rattle.std.specs.Prelude.{◌≡◌, ℕ, ◌≤◌, ◌<◌, length, get_or, replicate};
ghost use Rattle.model.specs.Limits.{ends_most, flight_most};
ghost use Rattle.arrays.specs.Flight.{Slots, packets, flying_in};
ghost use Rattle.packets.specs.Moves.{Stays};
ghost use Rattle.queues.specs.Queue.{room, flown, Roomy, Queued, Kept, Idles, requeued, refilled};

use arrays::{Flight, SLOTS};
use queues::{NO_LANE, Queues, ROOM};

// The packets of a record, slot by slot; so many slots are in use.
pub fn spread(flight: &Flight, queues: &mut Queues, flying: usize)
    requires { flying ≤ flight_most }
    ensures packets { packets queues.new.number queues.new.lane queues.new.bit flying ≡ flying_in flight.now flying }
    ensures lanes { (i : ℕ) → i < flying → get_or queues.new.lane i 0 ≡ get_or flight.now.lane i 0 }
    ensures kept { Kept flying queues.old queues.new }
    ensures is { queues.new ≡ refilled queues.old queues.new.number queues.new.lane queues.new.bit flying }
    ensures long { Roomy queues.new }
{
    queues.number[..flying].copy_from_slice(&flight.number[..flying]);
    queues.lane[..flying].copy_from_slice(&flight.lane[..flying]);
    queues.bit[..flying].copy_from_slice(&flight.bit[..flying]);
    queues.used = flying;
}

// The packets that still stand, oldest first, into the arrays of a record; gives how many.
pub fn gather(queues: &Queues, flight: &mut Flight) -> usize
    requires { (queues.now.used ≤ room) × (length (flown queues.now) ≤ flight_most) }
    ensures many { result ≡ length (flown queues.now) }
    ensures packets { flying_in flight.new result ≡ flown queues.now }
    ensures stays { Stays result flight.old flight.new }
    ensures long { Slots flight.new }
{
    let mut w: usize = 0;
    for j in 0..queues.used {
        let x = queues.lane[j];
        if x != NO_LANE {
            let n = queues.number[j];
            let b = queues.bit[j];
            flight.number[w] = n;
            flight.lane[w] = x;
            flight.bit[w] = b;
            w += 1;
        }
    }
    w
}

// No lane has a first slot.
pub fn clear(queues: &mut Queues)
    ensures { queues.new ≡ requeued queues.old (replicate ends_most room) queues.old.last queues.old.after }
{
    queues.first = [ROOM as u16; model::ENDS];
}

// From the last slot to the first, each becomes the first of its lane's queue.
pub fn thread_lanes(queues: &mut Queues)
    requires { (queues.old.used ≤ room) × ((i : ℕ) → i < queues.old.used → get_or queues.old.lane i 0 < ends_most) × ((x : ℕ) → x < ends_most → get_or queues.old.first x 0 ≡ room) }
    ensures { Queued queues.new × Idles queues.old.used queues.old queues.new × (queues.new ≡ requeued queues.old queues.new.first queues.new.last queues.new.after) }
{
    for i in (0..queues.used).rev() {
        let x = usize::from(queues.lane[i]);
        let f = queues.first[x];
        if usize::from(f) == ROOM {
            queues.last[x] = i as u16;
        }
        queues.after[i] = f;
        queues.first[x] = i as u16;
    }
}

// The packets move up to the front, and the slots behind them can be used again.
pub fn make_room(queues: &mut Queues)
    requires { (length (flown queues.old) ≤ flight_most) × Queued queues.old }
    ensures many { queues.new.used ≡ length (flown queues.old) }
    ensures packets { flown queues.new ≡ flown queues.old }
    ensures queued { Queued queues.new }
    ensures kept { Kept queues.new.used queues.old queues.new }
    ensures idle { Idles queues.new.used queues.old queues.new }
    ensures long { Roomy queues.new }
{
    let mut flight = Flight {
        number: [0; SLOTS],
        lane: [0; SLOTS],
        bit: [false; SLOTS],
    };
    let kept = gather(queues, &mut flight);
    spread(&flight, queues, kept);
    clear(queues);
    thread_lanes(queues);
}

// The packets of a record, in queues.
pub fn line_up(flight: &Flight, flying: usize) -> Queues
    requires { (flying ≤ flight_most) × ((i : ℕ) → i < flying → get_or flight.now.lane i 0 < ends_most) }
    ensures packets { flown result ≡ flying_in flight.now flying }
    ensures queued { Queued result }
    ensures used { result.used ≡ flying }
    ensures long { Roomy result }
{
    let mut queues = Queues {
        number: [0; ROOM],
        lane: [0; ROOM],
        bit: [false; ROOM],
        first: [ROOM as u16; model::ENDS],
        last: [0; model::ENDS],
        after: [0; ROOM],
        used: 0,
    };
    spread(flight, &mut queues, flying);
    thread_lanes(&mut queues);
    queues
}
