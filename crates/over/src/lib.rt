// What makes a record ill formed: a loop for each array, with no early end, over references.
// Public for `formed` alone, which tests the limits first, so a loop may require them: docs/EXCEPTIONS.md.
#![tactic(auto)]

ghost use Rattle.std.specs.Prelude.{◌≡◌, false, not, Bool, ◌&&◌, ◌+◌, ◌*◌, ◌≤◌, ◌<◌, leb, ltb, eqb, get_or};
ghost use Rattle.std.specs.List.{list_any};
ghost use Rattle.model.specs.Limits.{nodes_most, links_most, ends_most, flight_most};
ghost use Rattle.model.specs.Below.{any};
ghost use Rattle.over.specs.Formed.{tallied};

use arrays::{SLOTS, Tally, sized};

// Whether some item passes the test. All are asked, with no early end: so the loop is vector code.
fn some<T: Copy, F: Fn(T) -> bool>(items: &[T], test: F) -> bool
    requires { F.IsAlwaysCallable test }
    ensures { (p : T → Bool) → ((x : T) (b : Bool) → F.post test x b → b ≡ p x) → result ≡ list_any p items.now }
{
    let mut found = false;
    for &x in items {
        found |= test(x);
    }
    found
}

// Some end is at no node: by how much its number exceeds the last is one vector instruction.
pub fn node_over(node: &[u16; model::ENDS], ends: usize, nodes: u16) -> bool
    requires { (ends ≤ ends_most) × (0 < nodes) }
    ensures { result ≡ any (λ x. leb nodes (get_or node.now x 0)) ends }
{
    let last = nodes - 1;
    let mut over = 0;
    for &a in &node[..ends] {
        over |= a.saturating_sub(last);
    }
    over != 0
}

// Some link joins a node to itself.
pub fn self_linked(node: &[u16; model::ENDS], links: usize) -> bool
    requires { links ≤ links_most }
    ensures { result ≡ any (λ l. eqb (get_or node.now (2 * l) 0) (get_or node.now (2 * l + 1) 0)) links }
{
    let mut bad = false;
    for l in 0..links {
        bad |= node[2 * l] == node[2 * l + 1];
    }
    bad
}

// Some Out end is marked.
pub fn out_marked<'a>(
    out: &'a [bool; model::ENDS],
    mark: &'a [bool; model::ENDS],
    ends: usize,
) -> bool
    requires { ends ≤ ends_most }
    ensures { result ≡ any (λ x. get_or out.now x false && get_or mark.now x false) ends }
{
    let mut fit = true;
    for x in 0..ends {
        fit &= !(out[x] & mark[x]);
    }
    !fit
}

// Some node has more turns than there were events.
pub fn turns_over(turns: &[u32; model::NODES], nodes: usize, events: u32) -> bool
    requires { nodes ≤ nodes_most }
    ensures { result ≡ any (λ v. ltb events (get_or turns.now v 0)) nodes }
{
    some(&turns[..nodes], |t| events < t)
}

// Some packet's number is not below admitted.
pub fn number_over(number: &[u32; SLOTS], flying: usize, admitted: u32) -> bool
    requires { flying ≤ flight_most }
    ensures { result ≡ any (λ i. leb admitted (get_or number.now i 0)) flying }
{
    some(&number[..flying], |n| admitted <= n)
}

// Some packet is on no lane.
pub fn lane_over(lane: &[u16; SLOTS], flying: usize, lanes: u16) -> bool
    requires { flying ≤ flight_most }
    ensures { result ≡ any (λ i. leb lanes (get_or lane.now i 0)) flying }
{
    some(&lane[..flying], |a| lanes <= a)
}

// Some link is down.
pub fn some_down(live: &[bool; model::LINKS], links: usize) -> bool
    requires { links ≤ links_most }
    ensures { result ≡ any (λ l. not (get_or live.now l false)) links }
{
    some(&live[..links], |up| !up)
}

// The limits and the sum, on numbers alone: what the loops below rest on.
pub fn limits_hold(nodes: usize, destination: usize, links: usize, t: Tally) -> bool
    ensures { result ≡ tallied nodes destination links t }
{
    let flying = t.flying;
    let events = t.events;
    let admitted = t.admitted;
    let sum = u64::from(t.delivered) + u64::from(t.lost) + u64::from(t.stranded);
    let a = sized(nodes, destination, links);
    let b = (events <= model::EVENTS) & (admitted <= events);
    if model::FLIGHT < flying {
        return false;
    }
    a & b & (u64::from(admitted) == flying as u64 + sum)
}
