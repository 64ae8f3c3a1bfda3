// One event on the arrays of a record that was checked: the part that moves arrows.
// Public for `lent` and `bursts` alone, so `step` may require what the check has told: docs/EXCEPTIONS.md.
#![tactic(auto)]

mod fail;

ghost use Rattle.std.specs.Prelude.{◌≡◌, true, List, Some, ◌≤◌, ◌<◌, length};
ghost use Rattle.model.specs.State.{Packet};
ghost use Rattle.model.specs.Formed.{well_formed};
ghost use Rattle.steps.specs.Call.{call};
ghost use Rattle.arrays.specs.declared.Oldest.{Oldest};
ghost use Rattle.arrays.specs.View.{shown};
ghost use Rattle.arrays.specs.Told.{tells, flies};
ghost use Rattle.departs.specs.Steps.{outcome_of, Chained, Whole, Sound};

use arrays::{Arrows, Plan, Tally, Told};
use arrivals::{deliver_step, lose_step};
pub use departs::Step;
use departs::{NO_MORE_EVENTS, NO_SUCH, bare};
use fail::fail_step;
use model::{DELIVER, FAIL, LOSE, SEND};
use sends::send_step;
use ways::Threads;

// One event, from what the packets in flight tell it; the caller moves these as the answer says.
pub fn step(
    plan: &Plan,
    threads: Option<&Threads>,
    arrows: &mut Arrows,
    tally: Tally,
    kind: u32,
    argument: usize,
    told: Told,
) -> Step
    requires sound { Sound plan.now arrows.old tally }
    requires chained { Chained threads plan.now }
    requires flying { (o : Oldest) → told.oldest ≡ Some o → 0 < tally.flying }
    requires gone { told.gone ≤ tally.flying }
    ensures outcome { (flight : List Packet) → told ≡ tells flight kind argument → length flight ≡ tally.flying → well_formed (shown plan.now arrows.old flight tally) ≡ true → outcome_of (shown plan.now arrows.new (flies kind argument arrows.new.local flight result.answer result.handled result.went) result.tally) result ≡ call (shown plan.now arrows.old flight tally) kind argument }
    ensures flying { (flight : List Packet) → told ≡ tells flight kind argument → length flight ≡ tally.flying → length (flies kind argument arrows.new.local flight result.answer result.handled result.went) ≡ result.tally.flying }
    ensures long { Whole arrows.new }
    ensures refused { (result.answer ≡ 0 → ⊥) → (result.tally ≡ tally) × (arrows.new ≡ arrows.old) }
{
    // looked at for the proof alone, which then knows how long the arrays are
    let _ = &arrows.out;
    if model::EVENTS <= tally.events {
        return bare(tally, NO_MORE_EVENTS);
    }
    match kind {
        SEND => send_step(plan, threads, arrows, tally, argument),
        DELIVER => deliver_step(plan, threads, arrows, tally, argument, told),
        LOSE => lose_step(plan, arrows, tally, argument, told),
        FAIL => fail_step(plan, arrows, tally, argument, told.gone),
        _ => bare(tally, NO_SUCH),
    }
}
