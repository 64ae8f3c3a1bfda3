// Each node's links in a chain, threaded once for a burst.
ghost use Rattle.std.specs.Prelude.{◌≡◌, ◌≤◌, ◌<◌, IfSome};
ghost use Rattle.model.specs.Limits.{links_most, ends_most, nodes_most};
ghost use Rattle.arrays.specs.View.{ends_seen, end_at, link_out_of, way_out_of, Named};
ghost use Rattle.ways.specs.Chains.{Threaded, Chain};

use crate::search::way_out;
use arrays::{Arrows, Plan};

// By node its first link, and by end the next link of its node.
#[derive(Clone, Copy)]
pub struct Threads {
    pub heads: [u16; model::NODES],
    pub next: [u16; model::ENDS],
}

// From the last link to the first, each becomes the head of the chains of its two nodes.
pub fn thread(plan: &Plan) -> Threads
    requires fits { plan.now.links ≤ links_most }
    requires named { Named nodes_most plan.now }
    ensures { Threaded plan.now result 0 }
{
    let links = plan.links;
    let mut heads = [links as u16; model::NODES];
    let mut next = [0u16; model::ENDS];
    for k in 0..links {
        let l = links - 1 - k;
        let x = 2 * l;
        let v = usize::from(plan.node[x]);
        let w = usize::from(plan.node[x + 1]);
        // both are read before either is written, for a link may have both its ends at one node
        let after = heads[v];
        let also = heads[w];
        next[x] = after;
        next[x + 1] = also;
        heads[v] = l as u16;
        heads[w] = l as u16;
    }
    Threads { heads, next }
}

// The end of the link at the node, which is one of the two that it joins.
fn end_at(plan: &Plan, v: u16, l: usize) -> usize
    requires { l < links_most }
    ensures is { result ≡ end_at plan.now.node v l }
    ensures within { result < ends_most }
{
    let x = 2 * l;
    if plan.node[x] == v { x } else { x + 1 }
}

// The first live link of the node whose end there is Out, if there is one: along its chain.
fn along(plan: &Plan, threads: &Threads, arrows: &Arrows, v: usize) -> Option<usize>
    requires fits { plan.now.links ≤ links_most }
    requires node { v < nodes_most }
    requires chain { Chain plan.now threads.now v }
    ensures is { result ≡ link_out_of (ends_seen plan.now arrows.now) v }
    ensures within { IfSome result (λ l. l < plan.now.links) }
{
    let mut l = usize::from(threads.heads[v]);
    loop {
        if plan.links <= l {
            break None;
        }
        let x = end_at(plan, v as u16, l);
        if arrows.live[l] & arrows.out[x] {
            break Some(l);
        }
        l = usize::from(threads.next[x]);
    }
}

// The end at which a packet leaves the node, if some link leads out: along its chain where the chains are threaded.
pub fn way(plan: &Plan, threads: Option<&Threads>, arrows: &Arrows, v: usize) -> Option<usize>
    requires fits { plan.now.links ≤ links_most }
    requires node { v < nodes_most }
    requires chain { IfSome threads (λ t. Chain plan.now t.now v) }
    ensures { result ≡ way_out_of (ends_seen plan.now arrows.now) v }
{
    let Some(threads) = threads else {
        return way_out(plan, arrows, v as u16);
    };
    match along(plan, threads, arrows, v) {
        Some(l) => Some(end_at(plan, v as u16, l)),
        None => None,
    }
}
