// How large a record is built.
ghost use Rattle.std.specs.Prelude.{◌<◌, ◌≤◌};

use sums::Draws;

// The counts that a record was built with, whatever becomes of it.
#[derive(Clone, Copy)]
pub(crate) struct Sizes {
    pub nodes: usize,
    pub links: usize,
    pub flying: usize,
    ghost some_node: { 0 < nodes },
    ghost few_nodes: { nodes ≤ 64 },
    ghost few_links: { links ≤ 256 },
    ghost few_packets: { flying ≤ 256 },
    ghost packets_have_links: { 0 < flying → 0 < links },
}

impl Sizes {
    pub(crate) fn shaped(draws: &mut Draws, shape: usize) -> Sizes {
        match shape {
            0 => Sizes {
                nodes: 2 + draws.below(4),
                links: 1 + draws.below(6),
                flying: draws.below(9),
            },
            1 => Sizes {
                nodes: 2 + draws.below(30),
                links: 1 + draws.below(40),
                flying: 1 + draws.below(40),
            },
            2 => Sizes {
                nodes: 64,
                links: 256,
                flying: 256,
            },
            3 => Sizes {
                nodes: 1,
                links: 0,
                flying: 0,
            },
            _ => Sizes {
                nodes: 64,
                links: 20,
                flying: 256,
            },
        }
    }
}
