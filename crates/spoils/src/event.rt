// An event by its kind: called on a record, and its line printed.
use model::{Handled, Went};
use network::{Moved, Network};
use std::fmt;
use std::io::Result;
use sums::of_record;

#[derive(Clone, Copy)]
pub(crate) enum Event {
    Send,
    Deliver,
    Lose,
    Fail,
}

impl fmt::Display for Event {
    fn fmt<W: fmt::Write>(&self, f: &mut fmt::Formatter<W>) -> fmt::Result {
        f.write_str(match self {
            Event::Send => "s",
            Event::Deliver => "d",
            Event::Lose => "l",
            Event::Fail => "f",
        })
    }
}

fn packet(out: &impl Print, h: Handled) -> Result<()> {
    match h {
        Handled::Packet(n) => print!(out; " {n}"),
        Handled::Nothing => print!(out; " -"),
    }
}

fn way(out: &impl Print, w: Went) -> Result<()> {
    match w {
        Went::Lane(x) => print!(out; " {x}"),
        Went::Delivered => print!(out; " in"),
        Went::Lost => print!(out; " lost"),
        Went::Stranded => print!(out; " end"),
        Went::Nowhere => print!(out; " -"),
    }
}

impl Event {
    fn moved(self, r: Network, argument: usize) -> Moved {
        match self {
            Event::Send => r.send(argument),
            Event::Deliver => r.deliver(argument),
            Event::Lose => r.lose(argument),
            Event::Fail => r.fail(argument),
        }
    }

    pub(crate) fn call(self, out: &impl Print, r: &mut Network, argument: usize) -> Result<()> {
        let m = self.moved(*r, argument);
        *r = m.network;
        print!(out; "{self} {argument} {}", m.answer)?;
        packet(out, m.handled)?;
        way(out, m.went)?;
        println!(out; " {}", of_record(*r))
    }
}
