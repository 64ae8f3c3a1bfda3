// The way of a packet that leaves a node: the lowest Out end, after a turn where there is none.
ghost use Rattle.std.specs.Prelude.{◌≡◌, true, List, ℕ, ◌*◌, ◌≤◌, ◌<◌, get_or};
ghost use Rattle.model.specs.Limits.{links_most, nodes_most, events_most};
ghost use Rattle.model.specs.State.{Packet};
ghost use Rattle.model.specs.Departure.{has_live, has_out, turn as turn_of};
ghost use Rattle.model.specs.Outcome.{leaves, leaves_by, onward as onward_of};
ghost use Rattle.arrays.specs.declared.record.Tally.{Tally};
ghost use Rattle.arrays.specs.View.{shown, ends_seen};
ghost use Rattle.departs.specs.Steps.{Room, Chained, MarksLive};

use arrays::{Arrows, Plan};
use turning::turn;
use ways::{Threads, way};

// Node v, which has no Out end but a live one, turns; gives the lowest Out end after that.
pub fn turned_way(plan: &Plan, threads: Option<&Threads>, arrows: &mut Arrows, v: usize) -> usize
    requires links_fit { plan.now.links ≤ links_most }
    requires nodes_fit { plan.now.nodes ≤ nodes_most }
    requires node { v < plan.now.nodes }
    requires turns { get_or arrows.old.turns v 0 ≤ events_most }
    requires finds { has_out (turn_of (ends_seen plan.now arrows.old) v) v ≡ true }
    requires chained { Chained threads plan.now }
    ensures leaves { (flight : List Packet) (t : Tally) (n : ℕ) → leaves (shown plan.now arrows.new flight t) result n ≡ leaves_by (turn_of (shown plan.now arrows.old flight t) v) v n }
    ensures within { result < 2 * plan.now.links }
    ensures long { Room arrows.new }
    ensures live { arrows.new.live ≡ arrows.old.live }
    ensures remote { arrows.new.remote ≡ arrows.old.remote }
{
    turn(plan, arrows, v);
    way(plan, threads, arrows, v).unwrap()
}

// Node v, which has a live end, makes its departure update; gives the lowest Out end after that.
pub fn onward(plan: &Plan, threads: Option<&Threads>, arrows: &mut Arrows, v: usize) -> usize
    requires links_fit { plan.now.links ≤ links_most }
    requires nodes_fit { plan.now.nodes ≤ nodes_most }
    requires node { v < plan.now.nodes }
    requires turns { get_or arrows.old.turns v 0 ≤ events_most }
    requires live { has_live (ends_seen plan.now arrows.old) v ≡ true }
    requires chained { Chained threads plan.now }
    requires marks { MarksLive plan.now arrows.old }
    ensures leaves { (flight : List Packet) (t : Tally) (n : ℕ) → leaves (shown plan.now arrows.new flight t) result n ≡ onward_of (shown plan.now arrows.old flight t) v n }
    ensures within { result < 2 * plan.now.links }
    ensures long { Room arrows.new }
    ensures live { arrows.new.live ≡ arrows.old.live }
    ensures remote { arrows.new.remote ≡ arrows.old.remote }
{
    // looked at for the proof alone, which then knows how long the arrays are
    let _ = &arrows.out;
    match way(plan, threads, arrows, v) {
        Some(x) => x,
        None => turned_way(plan, threads, arrows, v),
    }
}
