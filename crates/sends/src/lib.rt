// A send: the part that moves arrows.
// Public for `steps` alone, so it may require what the check has told: docs/EXCEPTIONS.md.
#![tactic(auto)]

ghost use Rattle.std.specs.Prelude.{◌≡◌, true, List, ◌<◌, length};
ghost use Rattle.model.specs.Limits.{events_most};
ghost use Rattle.model.specs.State.{Packet};
ghost use Rattle.model.specs.Formed.{well_formed};
ghost use Rattle.model.specs.Send.{send_to};
ghost use Rattle.arrays.specs.View.{shown};
ghost use Rattle.arrays.specs.Told.{passed};
ghost use Rattle.departs.specs.Steps.{outcome_of, Room, Chained, Sound};

use arrays::{Arrows, Plan, Tally};
use departs::{FLIGHT_FULL, NO_SUCH, Step, bare, counted, done, turned_way};
use model::Went;
use ways::{Threads, held, way};

pub fn send_step(
    plan: &Plan,
    threads: Option<&Threads>,
    arrows: &mut Arrows,
    tally: Tally,
    v: usize,
) -> Step
    requires sound { Sound plan.now arrows.old tally }
    requires room { tally.events < events_most }
    requires chained { Chained threads plan.now }
    ensures outcome { (flight : List Packet) → length flight ≡ tally.flying → well_formed (shown plan.now arrows.old flight tally) ≡ true → outcome_of (shown plan.now arrows.new (passed arrows.new.local flight result.handled result.went) result.tally) result ≡ send_to (shown plan.now arrows.old flight tally) v }
    ensures flying { (flight : List Packet) → length flight ≡ tally.flying → length (passed arrows.new.local flight result.handled result.went) ≡ result.tally.flying }
    ensures long { Room arrows.new }
    ensures live { arrows.new.live ≡ arrows.old.live }
    ensures remote { arrows.new.remote ≡ arrows.old.remote }
    ensures refused { (result.answer ≡ 0 → ⊥) → (result.tally ≡ tally) × (arrows.new ≡ arrows.old) }
{
    // looked at for the proof alone, which then knows how long the arrays are
    let _ = &arrows.out;
    let destination = plan.destination;
    let flying = tally.flying;
    let n = tally.admitted;
    if plan.nodes <= v {
        return bare(tally, NO_SUCH);
    }
    if v == destination {
        return done(counted(tally, flying, 1, 1, 0, 0), n, Went::Delivered);
    }
    let Some(x) = way(plan, threads, arrows, v) else {
        if !held(plan, arrows, v as u16) {
            return done(counted(tally, flying, 1, 0, 0, 1), n, Went::Stranded);
        }
        if model::FLIGHT <= flying {
            return bare(tally, FLIGHT_FULL);
        }
        let y = turned_way(plan, threads, arrows, v);
        return done(counted(tally, flying + 1, 1, 0, 0, 0), n, Went::Lane(y));
    };
    if model::FLIGHT <= flying {
        return bare(tally, FLIGHT_FULL);
    }
    done(counted(tally, flying + 1, 1, 0, 0, 0), n, Went::Lane(x))
}
