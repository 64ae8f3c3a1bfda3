// The ways a record is spoilt, numbered as in docs/CALLS.md; some leave it well formed.
ghost use Rattle.std.specs.Prelude.{◌<◌, IfSome};

use crate::sizes::Sizes;
use network::{Arrows, Network, Tally};
use sums::{Draws, HUGE};

pub(crate) const SPOILS: usize = 94;

const EVENTS: u32 = model::EVENTS;

// A node or lane far past any: sixteen bits hold it.
const FAR: u16 = 65_535;

fn new_nodes(number: usize, s: Sizes, destination: usize) -> usize {
    match number {
        1 => 0,
        2 => s.nodes + 1,
        3 => 64,
        4 => 65,
        5 => 1000,
        6 => HUGE,
        7 => destination,
        _ => destination.saturating_add(1),
    }
}

fn new_destination(number: usize, s: Sizes) -> usize {
    match number {
        9 => s.nodes - 1,
        10 => s.nodes,
        11 => 64,
        12 => 1000,
        _ => HUGE,
    }
}

fn new_links(number: usize, s: Sizes) -> usize {
    match number {
        14 => s.links.saturating_sub(1),
        15 => s.links + 1,
        16 => 0,
        17 => 256,
        18 => 257,
        19 => 1000,
        20 => 2_147_483_648,
        _ => HUGE,
    }
}

fn new_flying(number: usize, s: Sizes) -> usize {
    match number {
        22 => s.flying.saturating_sub(1),
        24 => 0,
        25 => 256,
        26 => 257,
        27 => 1000,
        28 => HUGE,
        // 23 and 29
        _ => s.flying + 1,
    }
}

// 1 to 29: the sizes.
fn spoil_sizes(s: Sizes, r: &mut Network, number: usize) {
    match number {
        1..=8 => r.plan.nodes = new_nodes(number, s, r.plan.destination),
        9..=13 => r.plan.destination = new_destination(number, s),
        14..=21 => r.plan.links = new_links(number, s),
        _ => r.tally.flying = new_flying(number, s),
    }
    if number == 29 {
        r.tally.admitted = r.tally.admitted.wrapping_add(1);
        r.tally.events = r.tally.events.wrapping_add(1);
    }
}

fn new_node(number: usize, n: u16, other: u16) -> u16 {
    match number {
        30 => 0,
        31 => n.saturating_sub(1),
        32 => n,
        33 => 64,
        34 => other,
        35 => 1000,
        _ => FAR,
    }
}

// 37 to 41: what is true of end y or its link is false, and back.
fn turn_over(a: &mut Arrows, y: usize, number: usize)
    requires { y < 512 }
{
    match number {
        37 => a.live[y / 2] = !a.live[y / 2],
        38 => a.out[y] = !a.out[y],
        39 => a.local[y] = !a.local[y],
        40 => a.remote[y] = !a.remote[y],
        _ => a.mark[y] = !a.mark[y],
    }
}

// Whether an end is one that this spoil looks for.
fn fits(number: usize, live: bool, out: bool, mark: bool) -> bool {
    match number {
        42 | 43 | 48 => mark,
        44 => live && !out && !mark,
        45 => live && out,
        46 => !live && !out,
        47 => !live && out,
        _ => !live,
    }
}

// The first lane from y on, round the last, whose end fits.
fn found(s: Sizes, a: &Arrows, y: usize, number: usize) -> Option<usize>
    requires { y < 512 }
    ensures { IfSome result (λ z. z < 512) }
{
    let lanes = 2 * s.links;
    for i in 0..lanes {
        let z = (y + i) % lanes;
        if fits(number, a.live[z / 2], a.out[z], a.mark[z]) {
            return Some(z);
        }
    }
    None
}

// 42 to 49: an end that is looked for.
fn spoil_found(s: Sizes, a: &mut Arrows, y: usize, number: usize)
    requires { y < 512 }
{
    let Some(z) = found(s, a, y, number) else {
        return;
    };
    match number {
        42 => a.out[z] = true,
        43 => a.mark[z] = false,
        48 => a.live[z / 2] = false,
        49 => a.live[z / 2] = true,
        _ => a.mark[z] = true,
    }
}

fn new_turns(number: usize, events: u32) -> u32 {
    match number {
        50 => 0,
        51 => events,
        52 => events.wrapping_add(1),
        53 => EVENTS,
        _ => u32::MAX,
    }
}

// What was drawn for the spoiling: an end, a packet, a node.
#[derive(Clone, Copy)]
struct Drawn {
    end: usize,
    packet: usize,
    node: usize,
    ghost end_in: { end < 512 },
    ghost packet_in: { packet < 256 },
    ghost node_in: { node < 64 },
}

fn chosen(draws: &mut Draws, s: Sizes) -> Drawn {
    let k = draws.below(s.links);
    let e = draws.below(2);
    Drawn {
        end: 2 * k + e,
        packet: draws.below(s.flying),
        node: draws.below(s.nodes),
    }
}

// 30 to 54: an end, its link, or a node's turns.
fn spoil_side(s: Sizes, r: &mut Network, d: Drawn, number: usize) {
    match number {
        30..=36 => {
            let other = r.plan.node[d.end ^ 1];
            r.plan.node[d.end] = new_node(number, s.nodes as u16, other);
        }
        37..=41 => turn_over(&mut r.arrows, d.end, number),
        42..=49 => spoil_found(s, &mut r.arrows, d.end, number),
        _ => r.arrows.turns[d.node] = new_turns(number, r.tally.events),
    }
}

fn new_number(number: usize, admitted: u32) -> u32 {
    match number {
        55 => 0,
        56 => admitted.saturating_sub(1),
        57 => admitted,
        58 => EVENTS,
        _ => u32::MAX,
    }
}

fn new_lane(number: usize, lanes: u16) -> u16 {
    match number {
        60 => 0,
        61 => lanes.saturating_sub(1),
        62 => lanes,
        64 => 512,
        65 => 1000,
        _ => FAR,
    }
}

// 55 to 68: a packet, or the link of its lane.
fn spoil_packet(s: Sizes, r: &mut Network, d: Drawn, number: usize) {
    let j = d.packet;
    match number {
        55..=59 => r.flight.number[j] = new_number(number, r.tally.admitted),
        // the lane of an end on a link that is down, if there is one
        63 => {
            if let Some(z) = found(s, &r.arrows, d.end, 49) {
                r.flight.lane[j] = z as u16;
            }
        }
        60..=66 => r.flight.lane[j] = new_lane(number, 2 * s.links as u16),
        67 => r.flight.bit[j] = !r.flight.bit[j],
        _ => {
            let k = r.flight.lane[j] as usize / 2;
            if k < model::LINKS {
                r.arrows.live[k] = false;
            }
        }
    }
}

fn new_events(number: usize, admitted: u32) -> u32 {
    match number {
        69 => admitted,
        70 => admitted.saturating_sub(1),
        71 => 0,
        72 => EVENTS - 1,
        73 => EVENTS,
        74 => EVENTS + 1,
        _ => u32::MAX,
    }
}

// One more, less one, and the largest.
fn changed(how: usize, count: u32) -> u32 {
    match how {
        0 => count.wrapping_add(1),
        1 => count.saturating_sub(1),
        _ => u32::MAX,
    }
}

// 69 to 90: the counts of events and of packets.
fn spoil_counts(t: &mut Tally, number: usize) {
    match number {
        69..=75 => t.events = new_events(number, t.admitted),
        76 => t.admitted = t.admitted.wrapping_add(1),
        77 => t.admitted = t.admitted.saturating_sub(1),
        78 => t.admitted = 0,
        79 => t.admitted = u32::MAX,
        80..=82 => t.delivered = changed(number - 80, t.delivered),
        83..=85 => t.lost = changed(number - 83, t.lost),
        86..=88 => t.stranded = changed(number - 86, t.stranded),
        89 => {
            t.admitted = t.admitted.wrapping_add(1);
            t.delivered = t.delivered.wrapping_add(1);
        }
        _ => {
            t.lost = t.lost.wrapping_add(t.delivered).wrapping_add(1);
            t.delivered = u32::MAX;
        }
    }
}

// 91 to 93: the entry just past those used, which may hold anything.
fn spoil_unused(s: Sizes, r: &mut Network, number: usize) {
    match number {
        91 if s.nodes < model::NODES => r.arrows.turns[s.nodes] = u32::MAX,
        92 if s.links < model::LINKS => {
            r.plan.node[2 * s.links] = FAR;
            r.arrows.mark[2 * s.links + 1] = true;
        }
        93 if s.flying < model::FLIGHT => {
            r.flight.number[s.flying] = u32::MAX;
            r.flight.lane[s.flying] = FAR;
        }
        _ => {}
    }
}

pub(crate) fn spoil(draws: &mut Draws, s: Sizes, r: &mut Network, number: usize) {
    let d = chosen(draws, s);
    match number {
        0 => {}
        1..=29 => spoil_sizes(s, r, number),
        30..=54 => spoil_side(s, r, d, number),
        55..=68 => spoil_packet(s, r, d, number),
        69..=90 => spoil_counts(&mut r.tally, number),
        _ => spoil_unused(s, r, number),
    }
}
