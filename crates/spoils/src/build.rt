// A well-formed record, drawn field by field; no history need lead to it.
ghost use Rattle.std.specs.Prelude.{◌+◌, ◌*◌, ◌<◌, ◌≤◌};

use crate::sizes::Sizes;
use arrays::SLOTS;
use network::{Arrows, Flight, Network, Plan, Tally};
use sums::Draws;

fn blank(s: Sizes) -> Network {
    Network {
        plan: Plan {
            node: [0; model::ENDS],
            nodes: s.nodes,
            destination: 0,
            links: s.links,
        },
        arrows: Arrows {
            live: [false; model::LINKS],
            out: [false; model::ENDS],
            local: [false; model::ENDS],
            remote: [false; model::ENDS],
            mark: [false; model::ENDS],
            turns: [0; model::NODES],
        },
        flight: Flight {
            number: [0; SLOTS],
            lane: [0; SLOTS],
            bit: [false; SLOTS],
        },
        tally: Tally {
            flying: s.flying,
            events: 0,
            admitted: 0,
            delivered: 0,
            lost: 0,
            stranded: 0,
        },
    }
}

fn fill_end(draws: &mut Draws, r: &mut Network, x: usize, node: u16, bias: usize, live: bool)
    requires { x < 512 }
{
    let out = draws.below(bias) == 0;
    r.plan.node[x] = node;
    r.arrows.out[x] = out;
    r.arrows.local[x] = draws.below(2) == 1;
    r.arrows.remote[x] = draws.below(2) == 1;
    r.arrows.mark[x] = draws.below(2) == 1 && live && !out;
}

fn fill_link(draws: &mut Draws, r: &mut Network, s: Sizes, k: usize, bias: usize)
    requires { k < 256 }
{
    let a = draws.below(s.nodes);
    let b = (a + 1 + draws.below(s.nodes - 1)) % s.nodes;
    let live = draws.below(8) != 0 || k == 0;
    fill_end(draws, r, 2 * k, a as u16, bias, live);
    fill_end(draws, r, 2 * k + 1, b as u16, bias, live);
    r.arrows.live[k] = live;
}

fn count(draws: &mut Draws, t: &mut Tally, s: Sizes) {
    let delivered = draws.below(50) as u32;
    let lost = draws.below(50) as u32;
    let stranded = draws.below(50) as u32;
    let admitted = s.flying as u32 + delivered + lost + stranded;
    t.delivered = delivered;
    t.lost = lost;
    t.stranded = stranded;
    t.admitted = admitted;
    t.events = admitted + draws.below(4) as u32;
}

// The lane, or the first after it on the same side whose link is live.
fn live_lane(live: &[bool; model::LINKS], lane: usize, lanes: usize) -> usize
    requires lane_in { lane < lanes }
    requires most { lanes ≤ 512 }
    ensures { result < lanes }
{
    let mut y = lane;
    for _ in 0..model::LINKS {
        if live[y / 2] {
            break;
        }
        y = (y + 2) % lanes;
    }
    y
}

fn fill_packet(draws: &mut Draws, r: &mut Network, s: Sizes, j: usize)
    requires { j < s.flying }
{
    let lanes = 2 * s.links;
    let lane = live_lane(&r.arrows.live, draws.below(lanes), lanes);
    r.flight.lane[j] = lane as u16;
    r.flight.bit[j] = draws.below(2) == 1;
    r.flight.number[j] = draws.below(r.tally.admitted as usize) as u32;
}

pub(crate) fn build(draws: &mut Draws, s: Sizes) -> Network {
    let mut r = blank(s);
    r.plan.destination = draws.below(s.nodes);
    let bias = 2 + draws.below(5);
    for k in 0..s.links {
        fill_link(draws, &mut r, s, k, bias);
    }
    count(draws, &mut r.tally, s);
    for j in 0..s.flying {
        fill_packet(draws, &mut r, s, j);
    }
    for v in 0..s.nodes {
        r.arrows.turns[v] = draws.below(r.tally.events as usize + 1) as u32;
    }
    r
}
