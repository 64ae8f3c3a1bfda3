// What the events share: the way of a packet that leaves a node, the counts, and the numbers of the refusals.
// Public for the crates up to `steps` alone, so these functions may require what the check has told: docs/EXCEPTIONS.md.
#![tactic(auto)]

mod answers;
mod depart;
mod tally;

pub use answers::{
    DONE, FLIGHT_FULL, LANE_EMPTY, LINK_DOWN, NO_MORE_EVENTS, NO_SUCH, NOT_FORMED, OUT_OF_STEP,
};
pub use depart::{onward, turned_way};
pub use tally::{Step, bare, counted, done};
