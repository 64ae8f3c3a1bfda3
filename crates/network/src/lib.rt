// The network: its record, and every call that moves an arrow.
#![tactic(auto)]

mod opening;
mod record;

ghost use Rattle.std.specs.Prelude.{◌≡◌};
ghost use Rattle.model.specs.Formed.{well_formed};
ghost use Rattle.model.specs.Send.{send_to};
ghost use Rattle.model.specs.Deliver.{deliver_on};
ghost use Rattle.model.specs.Lose.{lose_on};
ghost use Rattle.model.specs.Fail.{fail_of};
ghost use Rattle.network.specs.View.{view, tally_of};
ghost use Rattle.network.specs.Opening.{OpenPost};
ghost use Rattle.steps.specs.Call.{call};
ghost use Rattle.network.specs.Calls.{CallPost};

pub use arrays::{Arrows, Flight, Plan, Tally};
use formed::formed;
use model::{DELIVER, FAIL, LOSE, SEND};
pub use opening::Opened;
use pairs::{closed_walk, first_bad, sizes_hold};
pub use record::{Burst, Moved, Network};

impl Network {
    // The counts alone: what an event changes beside the arrays.
    pub fn tally(self) -> Tally
        ensures { result ≡ tally_of self }
    {
        self.tally
    }

    // "A record is well formed when .."
    pub fn well_formed(self) -> bool
        ensures { result ≡ well_formed (view self) }
    {
        formed(&self.plan, &self.arrows, &self.flight, self.tally)
    }

    // An event by its kind and argument; a kind that is none is refused with 6, after 1 and 5.
    pub fn apply(self, kind: u32, argument: usize) -> Moved
        ensures { CallPost self (call (view self) kind argument) result }
    {
        let mut next = self;
        let step = lent::apply(
            &self.plan,
            &mut next.arrows,
            &mut next.flight,
            self.tally,
            kind,
            argument,
        );
        next.tally = step.tally;
        Moved {
            network: next,
            answer: step.answer,
            handled: step.handled,
            went: step.went,
        }
    }

    // "Send at node v."
    pub fn send(self, v: usize) -> Moved
        ensures { CallPost self (send_to (view self) v) result }
    {
        self.apply(SEND, v)
    }

    // "Deliver on lane x": the oldest packet.
    pub fn deliver(self, x: usize) -> Moved
        ensures { CallPost self (deliver_on (view self) x) result }
    {
        self.apply(DELIVER, x)
    }

    // "Lose on lane x": the oldest packet.
    pub fn lose(self, x: usize) -> Moved
        ensures { CallPost self (lose_on (view self) x) result }
    {
        self.apply(LOSE, x)
    }

    // "Fail link l."
    pub fn fail(self, l: usize) -> Moved
        ensures { CallPost self (fail_of (view self) l) result }
    {
        self.apply(FAIL, l)
    }
}

// A network from a list of node numbers, two a link; answers 2, 3 and 4 in this order.
pub fn open(nodes: usize, destination: usize, list: &[u32]) -> Opened
    ensures { OpenPost nodes destination list.now result }
{
    if !sizes_hold(nodes, destination, list.len()) {
        return opening::refused(opening::BAD_SIZES, 0);
    }
    let bad = first_bad(nodes as u32, list);
    if bad < list.len() / 2 {
        return opening::refused(opening::BAD_LINK, bad);
    }
    if closed_walk(nodes, list) {
        return opening::refused(opening::CLOSED_WALK, 0);
    }
    let network = opening::filled(nodes, destination, list);
    Opened {
        network,
        answer: 0,
        place: 0,
    }
}
