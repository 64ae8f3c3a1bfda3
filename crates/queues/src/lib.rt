// The packets in flight of a burst: queues by lane, in slots that no other packet moves into.
// Public for `queued` alone, so these functions may require what the check has told: docs/EXCEPTIONS.md.
#![tactic(auto)]

mod queue;

pub use queue::{NO_LANE, Queues, ROOM};
