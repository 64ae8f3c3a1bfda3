// A list of node numbers, two a link: its tests, and the arrays of the record that it fills.
// Public for `network` alone, so what comes after a test may require what that test has told: docs/EXCEPTIONS.md.
#![tactic(auto)]

mod fill;
mod tests;
mod walks;

pub use fill::{live_of, nodes_of, side_of};
pub use tests::{first_bad, sizes_hold};
pub use walks::closed_walk;
