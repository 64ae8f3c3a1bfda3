// A turn of a node, in the arrays of its ends.
ghost use Rattle.std.specs.Prelude.{◌≡◌, false, not, cond, ◌+◌, ◌/◌, ◌≤◌, ◌<◌, length, get_or, set};
ghost use Rattle.model.specs.Limits.{links_most, ends_most, nodes_most, events_most};
ghost use Rattle.model.specs.Departure.{has_mark};
ghost use Rattle.arrays.specs.View.{ends_seen};
ghost use Rattle.turning.specs.Turned.{turned_end, Long, Part, Turned};

use crate::marked::marked;
use arrays::{Arrows, BLOCK, Plan, block_has};

// Whether an end of a node that turns is turned: on a live link where the turn is full, else where it is marked.
fn turns(arrows: &Arrows, y: usize, full: bool) -> bool
    requires { y < ends_most }
    ensures { result ≡ cond full (get_or arrows.now.live (y / 2) false) (get_or arrows.now.mark y false) }
{
    if full {
        arrows.live[y / 2]
    } else {
        arrows.mark[y]
    }
}

// The end has its part.
fn turn_end(arrows: &mut Arrows, y: usize, full: bool)
    requires { y < ends_most }
    ensures is { arrows.new ≡ turned_end full arrows.old y }
    ensures long { Long arrows.new }
{
    let turned = turns(arrows, y, full);
    let out = turned | arrows.out[y];
    arrows.out[y] = out;
    arrows.local[y] ^= turned;
    arrows.mark[y] = arrows.live[y / 2] & !out;
}

// Each end of v in the block has its part.
fn turn_block(plan: &Plan, arrows: &mut Arrows, from: usize, v: u16, full: bool)
    requires inside { from + 16 ≤ ends_most }
    requires long { Long arrows.old }
    ensures { Part plan.now v full from (from + 16) arrows.old arrows.new }
{
    for x in 0..BLOCK {
        let y = from + x;
        if plan.node[y] == v {
            turn_end(arrows, y, full);
        }
    }
}

// Each end of v has its part; blocks without one are passed.
fn turn_ends(plan: &Plan, arrows: &mut Arrows, v: u16, full: bool)
    requires fits { plan.now.links ≤ links_most }
    requires long { Long arrows.old }
    requires mode { full ≡ not (has_mark (ends_seen plan.now arrows.old) v) }
    ensures ends { Turned plan.now v arrows.old arrows.new }
    ensures turns { arrows.new.turns ≡ arrows.old.turns }
{
    for block in 0..(2 * plan.links).div_ceil(BLOCK) {
        let from = BLOCK * block;
        if block_has(&plan.node, from, v) {
            turn_block(plan, arrows, from, v, full);
        }
    }
}

// One turn of v.
pub fn turn(plan: &Plan, arrows: &mut Arrows, v: usize)
    requires fits { plan.now.links ≤ links_most }
    requires node { v < nodes_most }
    requires turns { get_or arrows.old.turns v 0 ≤ events_most }
    ensures ends { Turned plan.now v arrows.old arrows.new }
    ensures turns { arrows.new.turns ≡ set arrows.old.turns v (get_or arrows.old.turns v 0 + 1) }
    ensures long { length arrows.new.turns ≡ nodes_most }
{
    let w = v as u16;
    let full = !marked(plan, arrows, w);
    turn_ends(plan, arrows, w, full);
    arrows.turns[v] += 1;
}
