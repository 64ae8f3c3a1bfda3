// Whether a node's turn is partial.
ghost use Rattle.std.specs.Prelude.{◌≡◌, ◌≤◌};
ghost use Rattle.model.specs.Limits.{links_most};
ghost use Rattle.model.specs.Departure.{has_mark};
ghost use Rattle.arrays.specs.View.{ends_seen};

use arrays::{Arrows, Plan};

// Whether an end of the node is marked.
pub(crate) fn marked(plan: &Plan, arrows: &Arrows, v: u16) -> bool
    requires { plan.now.links ≤ links_most }
    ensures { result ≡ has_mark (ends_seen plan.now arrows.now) v }
{
    let mut some = false;
    for x in 0..2 * plan.links {
        some |= (plan.node[x] == v) & arrows.mark[x];
    }
    some
}
