// The packets of a record, in a list, oldest first.
#![tactic(auto)]

ghost use Rattle.std.specs.Prelude.{◌≡◌, ℕ, ◌≤◌, ◌<◌, length, get_or};
ghost use Rattle.model.specs.declared.Went.{Went};
ghost use Rattle.model.specs.declared.Handled.{Handled};
ghost use Rattle.model.specs.Limits.{ends_most, flight_most};
ghost use Rattle.arrays.specs.Flight.{Slots, flying_in};
ghost use Rattle.arrays.specs.Told.{left, passed, flies};
ghost use Rattle.listed.specs.Asked.{Listed};

use arrays::{Arrows, Asked, Flight, Oldest, Told, none};
use model::{FAIL, Handled, SEND, Went};
use packets::{keep_off, oldest, on_link, put, take_out};

// What the packets tell an event.
pub fn ask(flight: &Flight, flying: usize, kind: u32, argument: usize) -> Asked
    requires { (flying ≤ flight_most) × ((i : ℕ) → i < flying → get_or flight.now.lane i 0 < ends_most) }
    ensures { Listed flight.now flying kind argument result }
{
    if kind == SEND {
        return none(0);
    }
    if kind == FAIL {
        return none(on_link(&flight.lane[..flying], argument));
    }
    if model::ENDS <= argument {
        return none(0);
    }
    match oldest(flight, flying, argument as u16) {
        Some(at) => Asked {
            told: Told {
                oldest: Some(Oldest {
                    number: flight.number[at],
                    bit: flight.bit[at],
                }),
                gone: 0,
            },
            at,
        },
        None => none(0),
    }
}

// An accepted event takes its packets out; gives how many stay.
fn drop_out(flight: &mut Flight, flying: usize, kind: u32, argument: usize, asked: Asked) -> usize
    requires { (flying ≤ flight_most) × Listed flight.old flying kind argument asked }
    ensures { (flying_in flight.new result ≡ left kind argument 0 (flying_in flight.old flying)) × (result ≤ flying) }
{
    if kind == SEND {
        return flying;
    }
    if kind == FAIL {
        return keep_off(flight, flying, argument);
    }
    match asked.told.oldest {
        Some(_) => {
            let rest = flying - 1;
            take_out(flight, asked.at, rest);
            rest
        }
        None => flying,
    }
}

// A packet that left by an end becomes the newest; gives how many are in flight.
fn pass_on(
    flight: &mut Flight,
    arrows: &Arrows,
    flying: usize,
    handled: Handled,
    went: Went,
) -> usize
    requires { (n x : ℕ) → handled ≡ Handled.Packet n → went ≡ Went.Lane x → (x < ends_most) × (flying < flight_most) }
    ensures packets { flying_in flight.new result ≡ passed arrows.now.local (flying_in flight.old flying) handled went }
    ensures long { Slots flight.new }
{
    // looked at for the proof alone, which then knows how long the arrays are
    let _ = &flight.number;
    match handled {
        Handled::Packet(n) => match went {
            Went::Lane(x) => {
                let b = arrows.local[x];
                put(flight, flying, n, x, b);
                flying + 1
            }
            _ => flying,
        },
        Handled::Nothing => flying,
    }
}

// The packets move as the event's answer says; gives how many are in flight.
pub fn carry(
    flight: &mut Flight,
    arrows: &Arrows,
    flying: usize,
    kind: u32,
    argument: usize,
    asked: Asked,
    answer: u32,
    handled: Handled,
    went: Went,
) -> usize
    requires { (flying ≤ flight_most) × ((x : ℕ) → went ≡ Went.Lane x → x < ends_most) × (length (flies kind argument arrows.now.local (flying_in flight.old flying) answer handled went) ≤ flight_most) × Listed flight.old flying kind argument asked }
    ensures packets { flying_in flight.new result ≡ flies kind argument arrows.now.local (flying_in flight.old flying) answer handled went }
    ensures long { Slots flight.new }
{
    let mut stay = flying;
    if answer == 0 {
        stay = drop_out(flight, flying, kind, argument, asked);
    }
    pass_on(flight, arrows, stay, handled, went)
}
