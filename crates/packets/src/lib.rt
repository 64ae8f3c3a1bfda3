// The packets in flight in a record's own list, oldest first.
// Public for the crates up to `network` alone, so these functions may require what the check has told: docs/EXCEPTIONS.md.
#![tactic(auto)]

mod list;
mod search;

pub use list::{keep_off, on_link, put, take_out};
pub use search::oldest;
