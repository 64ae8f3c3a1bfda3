// The events of a drill file, each by a single call in place: a sum of what they gave, for the benchmark.
#![tactic(auto)]

use departs::Step;
use model::{Handled, Went};
use network::{Network, Tally};
use std::io;
use streams::{INPUT, input};

const MULTIPLIER: usize = 16_777_619;

const MODULUS: usize = 4_294_967_291;

// No packet has so great a number.
fn packet_code(h: Handled) -> usize {
    match h {
        Handled::Packet(n) => n as usize,
        Handled::Nothing => model::EVENTS as usize,
    }
}

// A lane is its own number; the other ways come after the lanes.
fn way_code(w: Went) -> usize {
    match w {
        Went::Lane(x) => x,
        Went::Delivered => model::ENDS,
        Went::Lost => model::ENDS + 1,
        Went::Stranded => model::ENDS + 2,
        Went::Nowhere => model::ENDS + 3,
    }
}

fn noted(sum: usize, answer: usize, packet: usize, way: usize) -> usize {
    (sum % MODULUS * MULTIPLIER + answer % 16 + 16 * (packet % 1_048_576) + way % 1024) % MODULUS
}

// An event on the record, in place; the tally goes by value, which is faster.
fn event(n: &mut Network, tally: Tally, kind: u32, argument: u32) -> Step {
    lent::apply(
        &n.plan,
        &mut n.arrows,
        &mut n.flight,
        tally,
        kind,
        argument as usize,
    )
}

// As many events as there are bytes at most: each has two.
fn calls(file: &[u8], from: usize, opened: Network) -> usize {
    let mut network = opened;
    let mut tally = opened.tally;
    let mut at = from;
    let mut sum = 1;
    for _ in 0..INPUT {
        let got = reader::next_at(file, at);
        let Ok(Some(read)) = got.event else {
            return sum;
        };
        at = got.next.at;
        let m = event(&mut network, tally, read.kind, read.argument);
        tally = m.tally;
        sum = noted(
            sum,
            m.answer as usize,
            packet_code(m.handled),
            way_code(m.went),
        );
    }
    sum
}

fn main(rt: HostRuntime) -> io::Result<()> {
    let mut file = input();
    let length = streams::read_full(&mut rt.stdin(), &mut file)?;
    let header = reader::header_of(&file[..length]);
    let next = header.next;
    let sum = calls(&file[..length], next.at, header.network);
    println!(rt; "{sum}")
}
