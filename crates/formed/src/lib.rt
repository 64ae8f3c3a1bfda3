// Whether the record that lent arrays show is well formed.
#![tactic(auto)]

ghost use Rattle.std.specs.Prelude.{◌≡◌};
ghost use Rattle.model.specs.Formed.{well_formed};
ghost use Rattle.arrays.specs.View.{shown};
ghost use Rattle.arrays.specs.Flight.{flying_in};

use arrays::{Arrows, Flight, Plan, Tally};
use down::{down_marked, lane_down};
use over::{
    lane_over, limits_hold, node_over, number_over, out_marked, self_linked, some_down, turns_over,
};

// "A record is well formed when ..": the check reads neither the bits of ends nor those of packets.
pub fn formed(plan: &Plan, arrows: &Arrows, flight: &Flight, tally: Tally) -> bool
    ensures { result ≡ well_formed (shown plan.now arrows.now (flying_in flight.now tally.flying) tally) }
{
    if !limits_hold(plan.nodes, plan.destination, plan.links, tally) {
        return false;
    }
    let links = plan.links;
    let ends = 2 * links;
    let flying = tally.flying;
    if node_over(&plan.node, ends, plan.nodes as u16)
        | self_linked(&plan.node, links)
        | out_marked(&arrows.out, &arrows.mark, ends)
    {
        return false;
    }
    if turns_over(&arrows.turns, plan.nodes, tally.events)
        | number_over(&flight.number, flying, tally.admitted)
        | lane_over(&flight.lane, flying, ends as u16)
    {
        return false;
    }
    if some_down(&arrows.live, links) {
        return !(down_marked(&arrows.live, &arrows.mark, links)
            | lane_down(&flight.lane, &arrows.live, flying));
    }
    true
}
