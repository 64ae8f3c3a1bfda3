// The way out of a node, on the arrays of a record that was checked.
// Public for the crates up to `bursts` alone, so these functions may require what the check has told: docs/EXCEPTIONS.md.
#![tactic(auto)]

mod chain;
mod search;

pub use chain::{Threads, thread, way};
pub use search::held;
