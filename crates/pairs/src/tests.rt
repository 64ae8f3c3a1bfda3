// The sizes of an opening, and the links of its list.
ghost use Rattle.std.specs.Prelude.{◌≡◌, ◌&&◌, ◌/◌, ◌%◌, eqb};
ghost use Rattle.model.specs.Formed.{sized, joins};
ghost use Rattle.model.specs.Opening.{first_bad_link};

use arrays::sized;

// The other side of answer 2, on full values: a list may be of any length.
pub fn sizes_hold(nodes: usize, destination: usize, numbers: usize) -> bool
    ensures { result ≡ (eqb (numbers % 2) 0 && sized nodes destination (numbers / 2)) }
{
    let even = numbers % 2 == 0;
    even & sized(nodes, destination, numbers / 2)
}

// The other side of answer 3.
fn joined(nodes: u32, a: u32, b: u32) -> bool
    ensures { result ≡ joins nodes a b }
{
    (a < nodes) & (b < nodes) & (a != b)
}

// The first link that names no node or joins a node to itself; where none does, the number of links.
pub fn first_bad(nodes: u32, list: &[u32]) -> usize
    ensures { result ≡ first_bad_link nodes list.now }
{
    let links = list.len() / 2;
    for l in 0..links {
        if !joined(nodes, list[2 * l], list[2 * l + 1]) {
            return l;
        }
    }
    links
}
