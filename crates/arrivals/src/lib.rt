// The oldest packet of a lane, delivered or lost: the part that moves arrows.
// Public for `steps` alone, so these functions may require what the check has told: docs/EXCEPTIONS.md.
#![tactic(auto)]

mod deliver;
mod lanes;
mod lose;

pub use deliver::deliver_step;
pub use lose::lose_step;
