// Counting an event.
ghost use Rattle.std.specs.Prelude.{◌≡◌, ◌≤◌};
ghost use Rattle.model.specs.Limits.{events_most};
ghost use Rattle.departs.specs.Steps.{Fair, tally_after};

use arrays::Tally;
use model::{Handled, Went};

// What an event gives beside the arrays that it changed.
#[derive(Clone, Copy)]
pub struct Step {
    pub tally: Tally,
    pub answer: u32,
    pub handled: Handled,
    pub went: Went,
}

// An event more, and the packets that it admitted, delivered, lost and stranded.
pub fn counted(
    t: Tally,
    flying: usize,
    admitted: u32,
    delivered: u32,
    lost: u32,
    stranded: u32,
) -> Tally
    requires { Fair t × (admitted ≤ events_most) × (delivered ≤ events_most) × (lost ≤ events_most) × (stranded ≤ events_most) }
    ensures { result ≡ tally_after t flying admitted delivered lost stranded }
{
    let events = t.events;
    let a = t.admitted;
    let d = t.delivered;
    let l = t.lost;
    let s = t.stranded;
    Tally {
        flying,
        events: events + 1,
        admitted: a + admitted,
        delivered: d + delivered,
        lost: l + lost,
        stranded: s + stranded,
    }
}

// An answer that goes with no packet.
pub fn bare(tally: Tally, answer: u32) -> Step
    ensures { result ≡ record { tally = tally; answer = answer; handled = Handled.Nothing; went = Went.Nowhere } }
{
    Step {
        tally,
        answer,
        handled: Handled::Nothing,
        went: Went::Nowhere,
    }
}

// An accepted event that handled packet n.
pub fn done(tally: Tally, n: u32, went: Went) -> Step
    ensures { result ≡ record { tally = tally; answer = 0; handled = Handled.Packet n; went = went } }
{
    Step {
        tally,
        answer: 0,
        handled: Handled::Packet(n),
        went,
    }
}
