// The packets of a burst, in queues by lane.
#![tactic(auto)]

ghost use Rattle.std.specs.Prelude.{◌≡◌, ℕ, List, ◌≤◌, ◌<◌, length};
ghost use Rattle.model.specs.declared.Went.{Went};
ghost use Rattle.model.specs.declared.Handled.{Handled};
ghost use Rattle.model.specs.Limits.{ends_most, flight_most};
ghost use Rattle.arrays.specs.Told.{left, passed, flies};
ghost use Rattle.queues.specs.Queue.{room, flown, Roomy, Queued, InOrder, relaned};
ghost use Rattle.queued.specs.Asked.{Queueing};

use arrays::{Arrows, Asked, Oldest, Told, none};
use model::{FAIL, Handled, SEND, Went};
use queues::{Queues, ROOM};
use slots::make_room;

// What the packets tell an event.
pub fn ask(queues: &Queues, kind: u32, argument: usize) -> Asked
    requires { queues.now.used ≤ room }
    ensures { (last after : List ℕ) → InOrder queues.now.lane queues.now.first last after queues.now.used → Queueing queues.now kind argument result }
{
    if kind == SEND {
        return none(0);
    }
    if kind == FAIL {
        if model::LINKS <= argument {
            return none(0);
        }
        return none(queues.on_link(argument));
    }
    if model::ENDS <= argument {
        return none(0);
    }
    let i = usize::from(queues.first[argument]);
    if ROOM <= i {
        return none(0);
    }
    Asked {
        told: Told {
            oldest: Some(Oldest {
                number: queues.number[i],
                bit: queues.bit[i],
            }),
            gone: 0,
        },
        at: i,
    }
}

// An accepted event takes its packets out.
fn drop_out(queues: &mut Queues, kind: u32, argument: usize, asked: Asked)
    requires { Queued queues.old × Queueing queues.old kind argument asked }
    ensures { Queued queues.new × (flown queues.new ≡ left kind argument 0 (flown queues.old)) × (queues.new.used ≡ queues.old.used) × (queues.new ≡ relaned queues.old queues.new.lane queues.new.first) }
{
    if kind == SEND {
        return;
    }
    if kind == FAIL {
        if argument < model::LINKS {
            queues.cut(argument);
        }
        return;
    }
    match asked.told.oldest {
        Some(_) => queues.take(asked.at, argument),
        None => {}
    }
}

// A packet that left by an end becomes the newest.
fn pass_on(queues: &mut Queues, arrows: &Arrows, handled: Handled, went: Went)
    requires { (queues.old.used < room) × ((x : ℕ) → went ≡ Went.Lane x → x < ends_most) × Queued queues.old }
    ensures packets { flown queues.new ≡ passed arrows.now.local (flown queues.old) handled went }
    ensures queued { Queued queues.new }
    ensures long { Roomy queues.new }
{
    // looked at for the proof alone, which then knows how long the arrays are
    let _ = &queues.number;
    match handled {
        Handled::Packet(n) => match went {
            Went::Lane(x) => {
                let b = arrows.local[x];
                queues.push(n, x, b);
            }
            _ => {}
        },
        Handled::Nothing => {}
    }
}

// The packets move as the event's answer says.
pub fn carry(
    queues: &mut Queues,
    arrows: &Arrows,
    kind: u32,
    argument: usize,
    asked: Asked,
    answer: u32,
    handled: Handled,
    went: Went,
)
    requires { (queues.old.used < room) × ((x : ℕ) → went ≡ Went.Lane x → x < ends_most) × Queued queues.old × Queueing queues.old kind argument asked }
    ensures packets { flown queues.new ≡ flies kind argument arrows.now.local (flown queues.old) answer handled went }
    ensures queued { Queued queues.new }
    ensures long { Roomy queues.new }
{
    if answer == 0 {
        drop_out(queues, kind, argument, asked);
    }
    pass_on(queues, arrows, handled, went);
}

// Where all slots are in use, the packets move up: there is room for one more.
pub fn room_for_one(queues: &mut Queues)
    requires { (length (flown queues.old) ≤ flight_most) × Queued queues.old }
    ensures room { queues.new.used < room }
    ensures packets { flown queues.new ≡ flown queues.old }
    ensures queued { Queued queues.new }
    ensures long { Roomy queues.new }
{
    if queues.used < ROOM {
        return;
    }
    make_room(queues);
}
