// Whether the opening arrows hold a closed walk.
ghost use Rattle.std.specs.Prelude.{◌≡◌, false, ◌&&◌, ℕ, ◌≤◌, ◌<◌, eqb, get_or};
ghost use Rattle.model.specs.Limits.{nodes_most};
ghost use Rattle.model.specs.Below.{any, tab};
ghost use Rattle.model.specs.State.{end};
ghost use Rattle.model.specs.Opening.{node_in, links_in, holds_closed_walk};

// By node: whether a walk sets out that is one arrow longer than those known.
fn longer(list: &[u32], shorter: &[bool; model::NODES]) -> [bool; model::NODES]
    requires { (x : ℕ) → node_in list.now x < nodes_most }
    ensures { result ≡ tab (λ v. any (λ l. eqb (node_in list.now (end l 0)) v && get_or shorter.now (node_in list.now (end l 1)) false) (links_in list.now)) nodes_most }
{
    let mut sets = [false; model::NODES];
    for l in 0..list.len() / 2 {
        let tail = list[2 * l] as usize;
        let head = list[2 * l + 1] as usize;
        sets[tail] |= shorter[head];
    }
    sets
}

// Some node has a walk.
fn some_sets(sets: &[bool; model::NODES], nodes: usize) -> bool
    requires { nodes ≤ nodes_most }
    ensures { result ≡ any (λ v. get_or sets.now v false) nodes }
{
    let mut found = false;
    for v in 0..nodes {
        found |= sets[v];
    }
    found
}

// A walk of as many arrows as there are nodes comes to some node twice.
pub fn closed_walk(nodes: usize, list: &[u32]) -> bool
    requires { (nodes ≤ nodes_most) × ((x : ℕ) → node_in list.now x < nodes) }
    ensures { result ≡ holds_closed_walk nodes list.now }
{
    let mut sets = [true; model::NODES];
    for _ in 0..nodes {
        sets = longer(list, &sets);
    }
    some_sets(&sets, nodes)
}
