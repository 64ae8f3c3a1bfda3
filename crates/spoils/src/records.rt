// Part `records`: records good and spoilt in one field, with events.
use crate::build::build;
use crate::event::Event;
use crate::sizes::Sizes;
use crate::spoil::{SPOILS, spoil};
use network::Network;
use std::io::Result;
use sums::{Draws, HUGE, of_record};

const SHAPES: [usize; 8] = [0, 1, 2, 3, 0, 1, 4, 1];

const DRAWN: [Event; 8] = [
    Event::Send,
    Event::Send,
    Event::Send,
    Event::Deliver,
    Event::Deliver,
    Event::Deliver,
    Event::Lose,
    Event::Fail,
];

const EACH: [Event; 5] = [
    Event::Send,
    Event::Deliver,
    Event::Lose,
    Event::Fail,
    Event::Deliver,
];

fn check(out: &impl Print, r: &Network, shape: usize, number: usize) -> Result<()> {
    let bad = u8::from(!r.well_formed());
    println!(out; "c {shape} {number} {bad} {}", of_record(*r))
}

// An argument at a bound or far past it.
fn wild(i: usize, s: Sizes) -> usize {
    match i {
        0 => s.nodes,
        1 => 2 * s.links,
        2 => s.links,
        3 => 64,
        4 => 256,
        5 => 512,
        6 => 1000,
        _ => HUGE,
    }
}

// A lane: often, as it now is, that of a drawn packet.
fn lane(draws: &mut Draws, s: Sizes, r: &Network, t: usize) -> usize {
    let flying = r.tally.flying.min(model::FLIGHT);
    if t == 1 || flying == 0 {
        return draws.below(2 * s.links + 1);
    }
    r.flight.lane[draws.below(flying)] as usize
}

fn argument(draws: &mut Draws, s: Sizes, r: &Network, event: Event) -> usize {
    let t = draws.below(8);
    if t == 0 {
        return wild(draws.below(8), s);
    }
    match event {
        Event::Send => draws.below(s.nodes),
        Event::Fail => draws.below(s.links + 1),
        Event::Deliver | Event::Lose => lane(draws, s, r, t),
    }
}

fn drawn(
    out: &impl Print,
    draws: &mut Draws,
    s: Sizes,
    r: &mut Network,
    event: Event,
) -> Result<()> {
    let a = argument(draws, s, r, event);
    event.call(out, r, a)
}

fn good(out: &impl Print, draws: &mut Draws, shape: usize) -> Result<()> {
    let s = Sizes::shaped(draws, shape);
    let mut r = build(draws, s);
    check(out, &r, shape, 0)?;
    for _ in 0..16 {
        let event = DRAWN[draws.below(8)];
        drawn(out, draws, s, &mut r, event)?;
    }
    check(out, &r, shape, 0)
}

fn spoilt(out: &impl Print, draws: &mut Draws, shape: usize, number: usize) -> Result<()> {
    let s = Sizes::shaped(draws, shape);
    let mut r = build(draws, s);
    spoil(draws, s, &mut r, number);
    check(out, &r, shape, number)?;
    for event in EACH {
        drawn(out, draws, s, &mut r, event)?;
    }
    Ok(())
}

// Good records, and then three shapes, each with every spoil.
pub(crate) fn part(out: &impl Print, draws: &mut Draws) -> Result<()> {
    for _ in 0..5 {
        for shape in SHAPES {
            good(out, draws, shape)?;
        }
    }
    for shape in 0..3 {
        for number in 0..SPOILS {
            spoilt(out, draws, shape, number)?;
        }
    }
    Ok(())
}
