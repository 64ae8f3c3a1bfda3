// Events one after the other, on the arrays of a record that was checked once.
// Public for `bursts` alone, so `run` may require what the check has told: docs/EXCEPTIONS.md.
#![tactic(auto)]

ghost use Rattle.std.specs.Prelude.{◌≡◌, true, ◌≤◌, ◌<◌, length, ℕ};
ghost use Rattle.model.specs.Limits.{nodes_most};
ghost use Rattle.model.specs.Formed.{well_formed};
ghost use Rattle.arrays.specs.View.{shown};
ghost use Rattle.ways.specs.Chains.{Chain};
ghost use Rattle.queues.specs.Queue.{room, flown, Queued};
ghost use Rattle.notes.specs.Bursts.{calls, Lists};

use arrays::{Arrows, Plan, Tally};
use notes::note;
use queued::{ask, carry, room_for_one};
use queues::Queues;
use steps::step;
use ways::Threads;

// The events, one after the other; the packets tell each, and move as it answers. Gives the counts after them.
pub fn run(
    plan: &Plan,
    threads: &Threads,
    arrows: &mut Arrows,
    queues: &mut Queues,
    tally: Tally,
    kinds: &[u32],
    arguments: &[u32],
    answers: &mut [u32],
    packets: &mut [u32],
    ways: &mut [usize],
    count: usize,
) -> Tally
    requires formed { well_formed (shown plan.now arrows.old (flown queues.old) tally) ≡ true }
    requires many { length (flown queues.old) ≡ tally.flying }
    requires chained { (v : ℕ) → v < nodes_most → Chain plan.now threads.now v }
    requires queued { Queued queues.old }
    requires kinds_enough { count ≤ length kinds.now }
    requires arguments_enough { count ≤ length arguments.now }
    requires answers_enough { count ≤ length answers.old }
    requires packets_enough { count ≤ length packets.old }
    requires ways_enough { count ≤ length ways.old }
    ensures state { shown plan.now arrows.new (flown queues.new) result ≡ calls (shown plan.now arrows.old (flown queues.old) tally) kinds.now arguments.now count }
    ensures lists { Lists (shown plan.now arrows.old (flown queues.old) tally) kinds.now arguments.now count answers.old packets.old ways.old answers.new packets.new ways.new }
    ensures many { length (flown queues.new) ≡ result.flying }
    ensures room { queues.new.used ≤ room }
{
    let mut t = tally;
    for i in 0..count {
        let kind = kinds[i];
        let argument = arguments[i] as usize;
        room_for_one(queues);
        let asked = ask(queues, kind, argument);
        let r = step(plan, Some(threads), arrows, t, kind, argument, asked.told);
        t = r.tally;
        carry(
            queues, arrows, kind, argument, asked, r.answer, r.handled, r.went,
        );
        note(answers, packets, ways, i, r);
    }
    t
}
