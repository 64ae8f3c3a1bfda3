// The packets of a burst in queues by lane: nothing is searched, and nothing moves.
ghost use Rattle.std.specs.Prelude.{◌≡◌, [], ◌∷◌, ◌++◌, ◌+◌, ◌*◌, ◌≤◌, ◌<◌, length, get_or, set};
ghost use Rattle.model.specs.Limits.{links_most, ends_most};
ghost use Rattle.model.specs.Lanes.{less};
ghost use Rattle.model.specs.Fail.{off};
ghost use Rattle.queues.specs.Queue.{room, no_lane, flown, Roomy, Queued, Pushed, Emptied, relaned};

// Slots of a burst; as a slot's number it says that there is none.
pub const ROOM: usize = 2 * model::FLIGHT;

// An empty slot is on this lane, which is none.
pub const NO_LANE: u16 = model::ENDS as u16;

// The packets of a burst.
#[derive(Clone, Copy)]
pub struct Queues {
    // by slot, oldest sent first
    pub number: [u32; ROOM],
    pub lane: [u16; ROOM],
    pub bit: [bool; ROOM],
    // by lane, its first and its last slot
    pub first: [u16; model::ENDS],
    pub last: [u16; model::ENDS],
    // by slot, the next of its lane
    pub after: [u16; ROOM],
    // slots in use
    pub used: usize,
}

impl Queues {
    // The packet in slot i, the first of lane x, goes.
    pub fn take(&mut self, i: usize, x: usize)
        requires { (i < room) × (x < ends_most) }
        ensures queued { Queued self.old → get_or self.old.first x 0 ≡ i → Queued self.new × (flown self.new ≡ less x (flown self.old)) }
        ensures is { self.new ≡ relaned self.old (set self.old.lane i no_lane) (set self.old.first x (get_or self.old.after i 0)) }
        ensures long { Roomy self.new }
        ensures firsts { length self.new.first ≡ ends_most }
    {
        let next = self.after[i];
        self.first[x] = next;
        self.lane[i] = NO_LANE;
    }

    // A packet comes into the next slot, the last of its lane.
    pub fn push(&mut self, n: u32, x: usize, b: bool)
        requires { (self.old.used < room) × (x < ends_most) × Queued self.old }
        ensures packets { flown self.new ≡ flown self.old ++ (record { number = n; lane = x; bit = b } ∷ []) }
        ensures queued { Queued self.new }
        ensures pushed { Pushed self.old n x b self.new }
        ensures long { Roomy self.new }
    {
        let k = self.used;
        self.number[k] = n;
        self.lane[k] = x as u16;
        self.bit[k] = b;
        self.after[k] = ROOM as u16;
        self.used = k + 1;
        let newest = usize::from(self.last[x]);
        self.last[x] = k as u16;
        if usize::from(self.first[x]) == ROOM {
            self.first[x] = k as u16;
        } else {
            self.after[newest] = k as u16;
        }
    }

    // How many packets are on link l.
    pub fn on_link(&self, l: usize) -> usize
        requires { (self.now.used ≤ room) × (l < links_most) }
        ensures { result + length (off l (flown self.now)) ≡ length (flown self.now) }
    {
        packets::on_link(&self.lane[..self.used], l)
    }

    // The packets on link l go, and its lanes' queues with them.
    pub fn cut(&mut self, l: usize)
        requires { (self.old.used ≤ room) × (l < links_most) }
        ensures queued { Queued self.old → Queued self.new }
        ensures packets { flown self.new ≡ off l (flown self.old) }
        ensures emptied { Emptied l self.old.used self.old.lane self.new.lane }
        ensures is { self.new ≡ relaned self.old self.new.lane (set (set self.old.first (2 * l) room) (2 * l + 1) room) }
        ensures long { Roomy self.new }
        ensures firsts { length self.new.first ≡ ends_most }
    {
        empty(&mut self.lane, self.used, l);
        self.first[2 * l] = ROOM as u16;
        self.first[2 * l + 1] = ROOM as u16;
    }
}

// The slots on link l become empty.
fn empty(lane: &mut [u16; ROOM], used: usize, l: usize)
    requires { (used ≤ room) × (l < links_most) }
    ensures { Emptied l used lane.old lane.new }
{
    for j in 0..used {
        if usize::from(lane[j]) / 2 == l {
            lane[j] = NO_LANE;
        }
    }
}
