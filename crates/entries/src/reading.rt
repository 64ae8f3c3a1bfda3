// Reading: the kinds of events.
ghost use Rattle.std.specs.Prelude.{◌≡◌};
ghost use Rattle.model.specs.File.{of_kind};
ghost use Rattle.entries.specs.Outcomes.{known};

use model::{FAIL, SEND};

// Whether a number is the kind of an event.
pub(crate) fn is_kind(kind: u32) -> bool
    ensures { result ≡ known (of_kind kind) }
{
    SEND <= kind && kind <= FAIL
}
