// Searches over the ends of a node.
ghost use Rattle.std.specs.Prelude.{◌≡◌, false, ◌&&◌, ◌+◌, ◌*◌, ◌/◌, ◌≤◌, ◌<◌, IfSome, eqb, get_or};
ghost use Rattle.model.specs.Limits.{links_most, ends_most};
ghost use Rattle.model.specs.Below.{any};
ghost use Rattle.model.specs.Departure.{has_live};
ghost use Rattle.arrays.specs.View.{ends_seen, link_out_of, way_out_of};

use arrays::{Arrows, BLOCK, Plan};

// Whether some end of the block is Out and at the node.
fn out_block(plan: &Plan, arrows: &Arrows, from: usize, v: u16) -> bool
    requires { from + 16 ≤ ends_most }
    ensures { result ≡ any (λ j. eqb (get_or plan.now.node (from + j) 0) v && get_or arrows.now.out (from + j) false) 16 }
{
    let mut some = false;
    for j in 0..BLOCK {
        some |= (plan.node[from + j] == v) & arrows.out[from + j];
    }
    some
}

// How many links whole blocks pass before one that has an Out end at the node.
fn passed(plan: &Plan, arrows: &Arrows, v: u16) -> usize
    requires { plan.now.links ≤ links_most }
    ensures within { result ≤ plan.now.links }
    ensures none { any (λ x. eqb (get_or plan.now.node x 0) v && get_or arrows.now.out x false) (2 * result) ≡ false }
{
    let blocks = plan.links / (BLOCK / 2);
    for b in 0..blocks {
        if out_block(plan, arrows, b * BLOCK, v) {
            return b * (BLOCK / 2);
        }
    }
    blocks * (BLOCK / 2)
}

// Whether the end is at the node, is Out, and has its link.
fn out_at(plan: &Plan, arrows: &Arrows, v: u16, x: usize) -> bool
    requires { x < ends_most }
    ensures { result ≡ (eqb (get_or plan.now.node x 0) v && get_or arrows.now.live (x / 2) false && get_or arrows.now.out x false) }
{
    plan.node[x] == v && arrows.live[x / 2] & arrows.out[x]
}

// The first live link of the node whose end there is Out, if there is one: over all links.
fn lowest(plan: &Plan, arrows: &Arrows, v: u16) -> Option<usize>
    requires { plan.now.links ≤ links_most }
    ensures is { result ≡ link_out_of (ends_seen plan.now arrows.now) v }
    ensures within { IfSome result (λ l. l < plan.now.links) }
{
    let mut l = passed(plan, arrows, v);
    loop {
        if plan.links <= l {
            break None;
        }
        if out_at(plan, arrows, v, 2 * l) || out_at(plan, arrows, v, 2 * l + 1) {
            break Some(l);
        }
        l += 1;
    }
}

// The end at which a packet leaves the node, if some link leads out.
pub(crate) fn way_out(plan: &Plan, arrows: &Arrows, v: u16) -> Option<usize>
    requires { plan.now.links ≤ links_most }
    ensures { result ≡ way_out_of (ends_seen plan.now arrows.now) v }
{
    let l = lowest(plan, arrows, v)?;
    if out_at(plan, arrows, v, 2 * l) {
        return Some(2 * l);
    }
    Some(2 * l + 1)
}

// Whether the node has a live end.
pub fn held(plan: &Plan, arrows: &Arrows, v: u16) -> bool
    requires { plan.now.links ≤ links_most }
    ensures { result ≡ has_live (ends_seen plan.now arrows.now) v }
{
    let mut some = false;
    for x in 0..2 * plan.links {
        some |= (plan.node[x] == v) & arrows.live[x / 2];
    }
    some
}
