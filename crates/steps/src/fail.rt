// Fail a link.
ghost use Rattle.std.specs.Prelude.{◌≡◌, true, List, ◌-◌, ◌≤◌, length};
ghost use Rattle.model.specs.Limits.{links_most, ends_most, flight_most};
ghost use Rattle.model.specs.State.{Packet};
ghost use Rattle.model.specs.Formed.{well_formed};
ghost use Rattle.model.specs.Fail.{off, fail_of};
ghost use Rattle.arrays.specs.View.{shown};
ghost use Rattle.arrays.specs.Told.{cleared, passed};
ghost use Rattle.departs.specs.Steps.{outcome_of, Fair};

use arrays::{Arrows, Plan, Tally};
use departs::{DONE, LINK_DOWN, NO_SUCH, Step, bare, counted};

// So many packets are on the link, and gone with it.
pub(crate) fn fail_step(
    plan: &Plan,
    arrows: &mut Arrows,
    tally: Tally,
    l: usize,
    gone: usize,
) -> Step
    requires links_fit { plan.now.links ≤ links_most }
    requires flying { tally.flying ≤ flight_most }
    requires gone { gone ≤ tally.flying }
    requires fair { Fair tally }
    ensures outcome { (flight : List Packet) → gone ≡ length flight - length (off l flight) → well_formed (shown plan.now arrows.old flight tally) ≡ true → outcome_of (shown plan.now arrows.new (passed arrows.new.local (cleared result.answer l flight) result.handled result.went) result.tally) result ≡ fail_of (shown plan.now arrows.old flight tally) l }
    ensures flying { (flight : List Packet) → gone ≡ length flight - length (off l flight) → length flight ≡ tally.flying → length (passed arrows.new.local (cleared result.answer l flight) result.handled result.went) ≡ result.tally.flying }
    ensures live_long { length arrows.new.live ≡ links_most }
    ensures mark_long { length arrows.new.mark ≡ ends_most }
    ensures frames { (arrows.new.out ≡ arrows.old.out) × (arrows.new.local ≡ arrows.old.local) × (arrows.new.remote ≡ arrows.old.remote) × (arrows.new.turns ≡ arrows.old.turns) }
    ensures refused { (result.answer ≡ 0 → ⊥) → (result.tally ≡ tally) × (arrows.new ≡ arrows.old) }
{
    if plan.links <= l {
        return bare(tally, NO_SUCH);
    }
    if !arrows.live[l] {
        return bare(tally, LINK_DOWN);
    }
    arrows.live[l] = false;
    arrows.mark[2 * l] = false;
    arrows.mark[2 * l + 1] = false;
    let flying = tally.flying;
    bare(counted(tally, flying - gone, 0, 0, gone as u32, 0), DONE)
}
