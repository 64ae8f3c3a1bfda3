// A drawn opening: arrows along a drawn order, so that no walk closes, and then trouble.
ghost use Rattle.std.specs.Prelude.{◌≡◌, ◌+◌, ◌*◌, ◌<◌, ◌≤◌, length};
ghost use Rattle.arrayvec.specs.ArrayVec.{array_vec_len};

use arrayvec::ArrayVec;
use sums::Draws;

// The most numbers that an opening's list has.
pub(crate) const MOST: usize = 515;

// An opening: its list has two numbers a link.
#[derive(Drop)]
pub(crate) struct Case {
    pub nodes: usize,
    pub destination: usize,
    pub list: ArrayVec<u32, MOST>,
}

fn shuffled(draws: &mut Draws, nodes: usize) -> [u32; model::NODES]
    requires { nodes ≤ 64 }
{
    let mut order = [0; model::NODES];
    for (i, node) in order.iter_mut().enumerate() {
        *node = i as u32;
    }
    for i in (1..nodes).rev() {
        let w = draws.below(i + 1);
        order.swap(i, w);
    }
    order
}

// Each link from the earlier of two nodes to the later.
fn linked(draws: &mut Draws, order: &[u32], links: usize) -> ArrayVec<u32, MOST>
    requires nodes { 1 < length order.now }
    requires room { links ≤ 60 }
    ensures { array_vec_len result ≡ 2 * links }
{
    let nodes = order.len();
    let mut list = ArrayVec::new();
    for k in 0..links {
        let p = draws.below(nodes);
        let d = draws.below(nodes - 1);
        let q = (p + 1 + d) % nodes;
        list.push(order[p.min(q)]);
        list.push(order[p.max(q)]);
    }
    list
}

// By t: link k turned, or all links from k on, a node number at end e of link k, or the last number dropped.
fn spoil(list: &mut ArrayVec<u32, MOST>, t: usize, k: usize, e: usize, nodes: u32)
    requires link { 2 * k + 1 < array_vec_len list.old }
    requires end { e < 2 }
{
    match t {
        0 => list.swap(2 * k, 2 * k + 1),
        1 => {
            for i in k..list.len() / 2 {
                list.swap(2 * i, 2 * i + 1);
            }
        }
        2 => list[2 * k + e] = nodes,
        3 => list[2 * k + e] = list[2 * k + 1 - e],
        4 => {
            list.pop();
        }
        _ => {}
    }
}

pub(crate) fn drawn(draws: &mut Draws) -> Case {
    let nodes = 2 + draws.below(63);
    let destination = match draws.below(16) {
        0 => nodes,
        _ => draws.below(nodes),
    };
    let links = 1 + draws.below(60);
    let order = shuffled(draws, nodes);
    let mut list = linked(draws, &order[..nodes], links);
    let t = draws.below(8);
    let k = draws.below(links);
    let e = draws.below(2);
    spoil(&mut list, t, k, e, nodes as u32);
    Case {
        nodes,
        destination,
        list,
    }
}
