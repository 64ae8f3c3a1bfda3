// The oldest packet of a lane, or why none can be taken.
ghost use Rattle.std.specs.Prelude.{◌≡◌, ◌≤◌};
ghost use Rattle.model.specs.Limits.{links_most};
ghost use Rattle.arrivals.specs.Lanes.{first_on};

use arrays::{Arrows, Oldest, Plan, Told};
use departs::{LANE_EMPTY, LINK_DOWN, NO_SUCH};

// The answer where there is no such lane, its link is down, or it is empty.
pub(crate) fn first_on(plan: &Plan, arrows: &Arrows, x: usize, told: Told) -> Result<Oldest, u32>
    requires { plan.now.links ≤ links_most }
    ensures { result ≡ first_on plan.now arrows.now x told }
{
    if 2 * plan.links <= x {
        return Err(NO_SUCH);
    }
    if !arrows.live[x / 2] {
        return Err(LINK_DOWN);
    }
    match told.oldest {
        Some(oldest) => Ok(oldest),
        None => Err(LANE_EMPTY),
    }
}
