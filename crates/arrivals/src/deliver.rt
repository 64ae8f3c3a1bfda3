// Deliver the oldest packet of a lane.
ghost use Rattle.std.specs.Prelude.{◌≡◌, true, List, Some, ◌*◌, ◌≤◌, ◌<◌, get_or, length};
ghost use Rattle.model.specs.Limits.{nodes_most, links_most, ends_most, flight_most, events_most};
ghost use Rattle.model.specs.State.{Packet};
ghost use Rattle.model.specs.Formed.{well_formed};
ghost use Rattle.model.specs.Departure.{has_live};
ghost use Rattle.model.specs.Lanes.{on_lane};
ghost use Rattle.model.specs.Deliver.{deliver_on};
ghost use Rattle.arrays.specs.declared.Oldest.{Oldest};
ghost use Rattle.arrays.specs.View.{shown, ends_seen};
ghost use Rattle.arrays.specs.Told.{oldest_in, without, passed};
ghost use Rattle.departs.specs.Steps.{outcome_of, Room, Chained, MarksLive, Fair, Sound};
ghost use Rattle.arrivals.specs.Landing.{landed, heard};

use crate::lanes::first_on;
use arrays::{Arrows, Plan, Tally, Told, other};
use departs::{OUT_OF_STEP, Step, bare, counted, done, onward};
use model::Went;
use ways::Threads;

// The packet n has come to end y: the end of its way, back where the end is Out, or out by the lowest.
fn land(
    plan: &Plan,
    threads: Option<&Threads>,
    arrows: &mut Arrows,
    tally: Tally,
    y: usize,
    n: u32,
) -> Step
    requires links_fit { plan.now.links ≤ links_most }
    requires nodes_fit { plan.now.nodes ≤ nodes_most }
    requires inside { y < 2 * plan.now.links }
    requires named { get_or plan.now.node y 0 < plan.now.nodes }
    requires turns { get_or arrows.old.turns (get_or plan.now.node y 0) 0 ≤ events_most }
    requires flying { tally.flying < flight_most }
    requires live { has_live (ends_seen plan.now arrows.old) (get_or plan.now.node y 0) ≡ true }
    requires chained { Chained threads plan.now }
    requires marks { MarksLive plan.now arrows.old }
    requires fair { Fair tally }
    ensures outcome { (flight : List Packet) → outcome_of (shown plan.now arrows.new (passed arrows.new.local flight result.handled result.went) result.tally) result ≡ landed (shown plan.now arrows.old flight tally) y n }
    ensures flying { (flight : List Packet) → length flight ≡ tally.flying → length (passed arrows.new.local flight result.handled result.went) ≡ result.tally.flying }
    ensures accepted { result.answer ≡ 0 }
    ensures long { Room arrows.new }
    ensures live { arrows.new.live ≡ arrows.old.live }
    ensures remote { arrows.new.remote ≡ arrows.old.remote }
{
    // looked at for the proof alone, which then knows how long the arrays are
    let _ = &arrows.out;
    let destination = plan.destination;
    let flying = tally.flying;
    let v = usize::from(plan.node[y]);
    if v == destination {
        return done(counted(tally, flying, 0, 1, 0, 0), n, Went::Delivered);
    }
    let t = counted(tally, flying + 1, 0, 0, 0, 0);
    if arrows.out[y] {
        return done(t, n, Went::Lane(y));
    }
    let x = onward(plan, threads, arrows, v);
    done(t, n, Went::Lane(x))
}

// News at an Out end: its neighbour has turned the arrow. With none the end stays as it is.
fn hear(arrows: &mut Arrows, y: usize, fresh: bool)
    requires { y < ends_most }
    ensures { arrows.new ≡ heard arrows.old y fresh }
{
    arrows.out[y] &= !fresh;
    arrows.remote[y] ^= fresh;
}

pub fn deliver_step(
    plan: &Plan,
    threads: Option<&Threads>,
    arrows: &mut Arrows,
    tally: Tally,
    x: usize,
    told: Told,
) -> Step
    requires sound { Sound plan.now arrows.old tally }
    requires room { tally.events < events_most }
    requires flying { (o : Oldest) → told.oldest ≡ Some o → 0 < tally.flying }
    requires chained { Chained threads plan.now }
    ensures outcome { (flight : List Packet) → told ≡ oldest_in (on_lane x flight) → well_formed (shown plan.now arrows.old flight tally) ≡ true → outcome_of (shown plan.now arrows.new (passed arrows.new.local (without result.answer x flight) result.handled result.went) result.tally) result ≡ deliver_on (shown plan.now arrows.old flight tally) x }
    ensures flying { (flight : List Packet) → told ≡ oldest_in (on_lane x flight) → length flight ≡ tally.flying → length (passed arrows.new.local (without result.answer x flight) result.handled result.went) ≡ result.tally.flying }
    ensures long { Room arrows.new }
    ensures remote_long { length arrows.new.remote ≡ ends_most }
    ensures live { arrows.new.live ≡ arrows.old.live }
    ensures refused { (result.answer ≡ 0 → ⊥) → (result.tally ≡ tally) × (arrows.new ≡ arrows.old) }
{
    let oldest = match first_on(plan, arrows, x, told) {
        Ok(oldest) => oldest,
        Err(answer) => return bare(tally, answer),
    };
    let y = other(x);
    let fresh = oldest.bit ^ arrows.remote[y];
    if !arrows.out[y] & fresh {
        return bare(tally, OUT_OF_STEP);
    }
    let mut taken = tally;
    taken.flying -= 1;
    hear(arrows, y, fresh);
    land(plan, threads, arrows, taken, y, oldest.number)
}
