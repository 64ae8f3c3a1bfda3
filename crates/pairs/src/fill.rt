// The arrays of a record at its opening.
ghost use Rattle.std.specs.Prelude.{◌≡◌, ◌&&◌, ℕ, ◌*◌, ◌%◌, ◌≤◌, ◌<◌, ltb, eqb, length};
ghost use Rattle.model.specs.Limits.{nodes_most, links_most, ends_most};
ghost use Rattle.model.specs.Below.{tab};
ghost use Rattle.model.specs.Opening.{node_in};

// By end: its node.
pub fn nodes_of(list: &[u32]) -> [u16; model::ENDS]
    requires { (length list.now ≤ ends_most) × ((x : ℕ) → node_in list.now x < nodes_most) }
    ensures { result ≡ tab (node_in list.now) ends_most }
{
    let mut node = [0; model::ENDS];
    for (x, &a) in list.iter().enumerate() {
        node[x] = a as u16;
    }
    node
}

// By link: all are live.
pub fn live_of(links: usize) -> [bool; model::LINKS]
    requires { links ≤ links_most }
    ensures { result ≡ tab (λ l. ltb l links) links_most }
{
    let mut live = [false; model::LINKS];
    live[..links].fill(true);
    live
}

// By end: whether it is the one on this side of its link.
pub fn side_of(links: usize, side: usize) -> [bool; model::ENDS]
    requires { links ≤ links_most }
    ensures { result ≡ tab (λ x. ltb x (2 * links) && eqb (x % 2) side) ends_most }
{
    let mut on = [false; model::ENDS];
    for x in 0..2 * links {
        on[x] = x % 2 == side;
    }
    on
}
