// Part `limit`: 1,000,000 accepted events, and then one more of each kind.
use crate::event::Event;
use network::Network;
use std::io::Result;
use sums::{Draws, HUGE};

const ROUNDS: usize = 500_000;

// Two accepted events and one that is refused, unseen.
fn round(r: &mut Network) {
    *r = r.send(1).network;
    *r = r.deliver(1).network;
    *r = r.deliver(1).network;
}

fn shown_round(out: &impl Print, r: &mut Network) -> Result<()> {
    for event in [Event::Send, Event::Deliver, Event::Deliver] {
        event.call(out, r, 1)?;
    }
    Ok(())
}

fn past(out: &impl Print, draws: &mut Draws, r: &mut Network, event: Event) -> Result<()> {
    let z = draws.below(8);
    for argument in [0, 1, z, HUGE] {
        event.call(out, r, argument)?;
    }
    Ok(())
}

pub(crate) fn part(out: &impl Print, draws: &mut Draws) -> Result<()> {
    let mut r = network::open(3, 0, &[0, 1, 0, 2]).network;
    for i in 0..ROUNDS {
        if i % 100_000 == 0 || i == ROUNDS - 1 {
            shown_round(out, &mut r)?;
        } else {
            round(&mut r);
        }
    }
    for event in [Event::Send, Event::Deliver, Event::Lose, Event::Fail] {
        past(out, draws, &mut r, event)?;
    }
    Ok(())
}
