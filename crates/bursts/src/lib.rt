// A burst on a record: it is checked once, its packets stand in queues while the events run, and are gathered again.
#![tactic(auto)]

ghost use Rattle.network.specs.Calls.{BurstPost};

use network::{Burst, Network};
use notes::{all_refused, refuse_all, shortest};
use runs::run;
use slots::{gather, line_up};
use ways::thread;

// As many calls as the shortest list holds, one after the other; the record is checked once.
pub fn burst(
    n: Network,
    kinds: &[u32],
    arguments: &[u32],
    answers: &mut [u32],
    packets: &mut [u32],
    ways: &mut [usize],
) -> Burst
    ensures { BurstPost n kinds.now arguments.now answers.old packets.old ways.old answers.new packets.new ways.new result }
{
    let count = shortest(
        kinds.len(),
        arguments.len(),
        answers.len(),
        packets.len(),
        ways.len(),
    );
    if !n.well_formed() {
        refuse_all(answers, packets, ways, count);
        return Burst { network: n, count };
    }
    let threads = thread(&n.plan);
    let mut queues = line_up(&n.flight, n.tally.flying);
    let mut network = n;
    network.tally = run(
        &n.plan,
        &threads,
        &mut network.arrows,
        &mut queues,
        n.tally,
        kinds,
        arguments,
        answers,
        packets,
        ways,
        count,
    );
    if all_refused(answers, count) {
        return Burst { network: n, count };
    }
    gather(&queues, &mut network.flight);
    Burst { network, count }
}
