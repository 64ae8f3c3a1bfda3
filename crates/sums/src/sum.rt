// The checksum of a record, and of bytes.
ghost use Rattle.std.specs.Prelude.{◌≡◌, ◌<◌, min};
ghost use Rattle.model.specs.Limits.{nodes_most, links_most, ends_most, flight_most};
ghost use Rattle.sums.specs.Sums.{summed, sum_from, sum_of, each, counts_in, end_at, link_at, turns_at, packet_at, of_record};

use network::{Arrows, Flight, Network, Plan};

const MULTIPLIER: usize = 48_271;

const MODULUS: usize = 4_294_967_291;

fn add(h: usize, value: usize) -> usize
    ensures { result ≡ summed h value }
{
    (h % MODULUS * MULTIPLIER + value % MODULUS) % MODULUS
}

fn of_values(h: usize, values: &[usize]) -> usize
    ensures { result ≡ sum_from h values.now }
{
    let mut sum = h;
    for &value in values {
        sum = add(sum, value);
    }
    sum
}

fn of_counts(n: &Network) -> usize
    ensures { result ≡ sum_of (counts_in n.now) }
{
    let (plan, tally) = (&n.plan, &n.tally);
    let counts = [
        plan.nodes,
        plan.destination,
        plan.links,
        tally.flying,
        tally.events as usize,
        tally.admitted as usize,
        tally.delivered as usize,
        tally.lost as usize,
        tally.stranded as usize,
    ];
    of_values(1, &counts)
}

fn of_end(h: usize, a: &Arrows, x: usize) -> usize
    requires { x < ends_most }
    ensures { result ≡ sum_from h (end_at a.now x) }
{
    let end = [
        usize::from(a.out[x]),
        usize::from(a.local[x]),
        usize::from(a.remote[x]),
        usize::from(a.mark[x]),
    ];
    of_values(h, &end)
}

fn of_link(h: usize, p: &Plan, a: &Arrows, k: usize) -> usize
    requires { k < links_most }
    ensures { result ≡ sum_from h (link_at p.now a.now k) }
{
    let link = [
        p.node[2 * k] as usize,
        p.node[2 * k + 1] as usize,
        usize::from(a.live[k]),
    ];
    let joined = of_values(h, &link);
    let first = of_end(joined, a, 2 * k);
    of_end(first, a, 2 * k + 1)
}

fn of_links(h: usize, p: &Plan, a: &Arrows) -> usize
    ensures { result ≡ sum_from h (each (link_at p.now a.now) (min p.now.links links_most)) }
{
    let mut sum = h;
    for k in 0..p.links.min(model::LINKS) {
        sum = of_link(sum, p, a, k);
    }
    sum
}

fn of_turns(h: usize, a: &Arrows, nodes: usize) -> usize
    ensures { result ≡ sum_from h (each (turns_at a.now) (min nodes nodes_most)) }
{
    let mut sum = h;
    for v in 0..nodes.min(model::NODES) {
        sum = add(sum, a.turns[v] as usize);
    }
    sum
}

fn of_packet(h: usize, f: &Flight, j: usize) -> usize
    requires { j < flight_most }
    ensures { result ≡ sum_from h (packet_at f.now j) }
{
    let packet = [
        f.number[j] as usize,
        f.lane[j] as usize,
        usize::from(f.bit[j]),
    ];
    of_values(h, &packet)
}

fn of_packets(h: usize, f: &Flight, flying: usize) -> usize
    ensures { result ≡ sum_from h (each (packet_at f.now) (min flying flight_most)) }
{
    let mut sum = h;
    for j in 0..flying.min(model::FLIGHT) {
        sum = of_packet(sum, f, j);
    }
    sum
}

pub fn of_record(n: Network) -> usize
    ensures { result ≡ of_record n }
{
    let a = of_counts(&n);
    let b = of_links(a, &n.plan, &n.arrows);
    let c = of_turns(b, &n.arrows, n.plan.nodes);
    of_packets(c, &n.flight, n.tally.flying)
}

pub fn of_bytes(bytes: &[u8]) -> usize
    ensures { result ≡ sum_of bytes.now }
{
    let mut sum: usize = 1;
    for &byte in bytes {
        sum = add(sum, byte as usize);
    }
    sum
}
