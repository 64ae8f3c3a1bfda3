// One event on a record whose parts are lent: checked and done in place, nothing is copied.
#![tactic(auto)]

ghost use Rattle.lent.specs.Lent.{LentPost};

use arrays::{Arrows, Flight, Plan, Tally};
use departs::{NOT_FORMED, bare};
use formed::formed;
use listed::{ask, carry};
pub use steps::Step;
use steps::step;

// An event by its kind and argument; a kind that is none is refused with 6, after 1 and 5.
pub fn apply(
    plan: &Plan,
    arrows: &mut Arrows,
    flight: &mut Flight,
    tally: Tally,
    kind: u32,
    argument: usize,
) -> Step
    ensures { LentPost plan.now arrows.old flight.old tally kind argument arrows.new flight.new result }
{
    if !formed(plan, arrows, flight, tally) {
        return bare(tally, NOT_FORMED);
    }
    let flying = tally.flying;
    let asked = ask(flight, flying, kind, argument);
    // no chain is threaded for one event
    let r = step(plan, None, arrows, tally, kind, argument, asked.told);
    let answer = r.answer;
    if answer != 0 {
        return r;
    }
    carry(
        flight, arrows, flying, kind, argument, asked, answer, r.handled, r.went,
    );
    r
}
