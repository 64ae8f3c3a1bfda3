// Opening: the record that a list of node numbers fills, two a link, and the one that a refusal gives.
ghost use Rattle.std.specs.Prelude.{◌≡◌, ℕ, ◌*◌, ◌≤◌, ◌<◌, length};
ghost use Rattle.model.specs.Limits.{nodes_most, links_most};
ghost use Rattle.model.specs.Opening.{node_in, links_in, opened};
ghost use Rattle.network.specs.View.{view};
ghost use Rattle.network.specs.Opening.{lone_network, refusal};

use crate::record::Network;
use arrays::{Arrows, Flight, Plan, SLOTS, Tally};
use pairs::{live_of, nodes_of, side_of};

// The numbers of an opening's refusals.
pub(crate) const BAD_SIZES: u32 = 2;

pub(crate) const BAD_LINK: u32 = 3;

pub(crate) const CLOSED_WALK: u32 = 4;

#[derive(Clone, Copy)]
pub struct Opened {
    pub network: Network,
    pub answer: u32,
    pub place: usize,
}

// One node, destination 0, no link, just opened.
fn lone() -> Network
    ensures { result ≡ lone_network }
{
    Network {
        plan: Plan {
            node: [0; model::ENDS],
            nodes: 1,
            destination: 0,
            links: 0,
        },
        arrows: Arrows {
            live: [false; model::LINKS],
            out: [false; model::ENDS],
            local: [false; model::ENDS],
            remote: [false; model::ENDS],
            mark: [false; model::ENDS],
            turns: [0; model::NODES],
        },
        flight: Flight {
            number: [0; SLOTS],
            lane: [0; SLOTS],
            bit: [false; SLOTS],
        },
        tally: Tally {
            flying: 0,
            events: 0,
            admitted: 0,
            delivered: 0,
            lost: 0,
            stranded: 0,
        },
    }
}

pub(crate) fn refused(answer: u32, place: usize) -> Opened
    ensures { result ≡ refusal answer place }
{
    Opened {
        network: lone(),
        answer,
        place,
    }
}

// The arrow goes from end 0 to end 1, so end 0 is Out and end 1, which is In, is marked.
pub(crate) fn filled(nodes: usize, destination: usize, list: &[u32]) -> Network
    requires { (length list.now ≡ 2 * links_in list.now) × (links_in list.now ≤ links_most) × ((x : ℕ) → node_in list.now x < nodes_most) }
    ensures { view result ≡ opened nodes destination list.now }
{
    let links = list.len() / 2;
    let lone = lone();
    Network {
        plan: Plan {
            node: nodes_of(list),
            nodes,
            destination,
            links,
        },
        arrows: Arrows {
            live: live_of(links),
            out: side_of(links, 0),
            mark: side_of(links, 1),
            ..lone.arrows
        },
        ..lone
    }
}
