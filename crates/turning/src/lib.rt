// A node's turn, on the arrays of a record that was checked.
// Public for the crates up to `network` alone, so it may require what the check has told: docs/EXCEPTIONS.md.
#![tactic(auto)]

mod arrows;
mod marked;

pub use arrows::turn;
