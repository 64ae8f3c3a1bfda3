// Lose the oldest packet of a lane.
ghost use Rattle.std.specs.Prelude.{◌≡◌, true, List, Some, ◌≤◌, ◌<◌, length};
ghost use Rattle.model.specs.Limits.{links_most};
ghost use Rattle.model.specs.State.{Packet};
ghost use Rattle.model.specs.Formed.{well_formed};
ghost use Rattle.model.specs.Lanes.{on_lane};
ghost use Rattle.model.specs.Lose.{lose_on};
ghost use Rattle.arrays.specs.declared.Oldest.{Oldest};
ghost use Rattle.arrays.specs.declared.record.Plan.{Plan};
ghost use Rattle.arrays.specs.declared.record.Arrows.{Arrows};
ghost use Rattle.arrays.specs.View.{shown};
ghost use Rattle.arrays.specs.Told.{oldest_in, without, passed};
ghost use Rattle.departs.specs.Steps.{outcome_of, Fair};

use crate::lanes::first_on;
use arrays::{Arrows, Plan, Tally, Told};
use departs::{Step, bare, counted, done};
use model::Went;

pub fn lose_step(plan: &Plan, arrows: &Arrows, tally: Tally, x: usize, told: Told) -> Step
    requires links_fit { plan.now.links ≤ links_most }
    requires fair { Fair tally }
    requires flying { (o : Oldest) → told.oldest ≡ Some o → 0 < tally.flying }
    ensures outcome { (p : Plan) (a : Arrows) (flight : List Packet) → p.links ≡ plan.now.links → a.live ≡ arrows.now.live → told ≡ oldest_in (on_lane x flight) → well_formed (shown p a flight tally) ≡ true → outcome_of (shown p a (passed a.local (without result.answer x flight) result.handled result.went) result.tally) result ≡ lose_on (shown p a flight tally) x }
    ensures flying { (flight : List Packet) → told ≡ oldest_in (on_lane x flight) → length flight ≡ tally.flying → length (passed arrows.now.local (without result.answer x flight) result.handled result.went) ≡ result.tally.flying }
    ensures refused { (result.answer ≡ 0 → ⊥) → result.tally ≡ tally }
{
    match first_on(plan, arrows, x, told) {
        Ok(oldest) => done(
            counted(tally, tally.flying - 1, 0, 0, 1, 0),
            oldest.number,
            Went::Lost,
        ),
        Err(answer) => bare(tally, answer),
    }
}
