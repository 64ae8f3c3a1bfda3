// The events of a drill file: read and written at a position of a slice that is lent.
#![tactic(auto)]

mod answers;
mod reading;

ghost use Rattle.std.specs.Prelude.{◌≡◌};
ghost use Rattle.model.specs.Writing.{write_event};
ghost use Rattle.entries.specs.Outcomes.{seen, event_at, holding};

pub use answers::{Cursor, Event, Got, Refusal};
use groups::read_number;

// The event at a position. A value that can't be had ends the reading at once with its place.
pub fn read_event(file: &[u8], from: Cursor) -> Got
    ensures { seen result ≡ event_at file.now from.at }
{
    let at = from.at;
    if file.len() <= at {
        return Got {
            event: Ok(None),
            next: Cursor { at: file.len() },
        };
    }
    let Ok(kind) = read_number(file, at) else {
        return Got::spoilt(at, from);
    };
    if !reading::is_kind(kind.value) {
        return Got::spoilt(at, from);
    }
    let Ok(argument) = read_number(file, kind.next) else {
        return Got::spoilt(kind.next, from);
    };
    let event = Event {
        kind: kind.value,
        argument: argument.value,
    };
    Got {
        event: Ok(Some(event)),
        next: Cursor { at: argument.next },
    }
}

// An event at the front of a part, and how many bytes it takes: 6, then 12. A refusal changes nothing.
pub fn write_event(out: &mut [u8], kind: u32, argument: u32) -> Result<usize, Refusal>
    ensures { holding result out.new ≡ write_event kind argument out.old }
{
    if !reading::is_kind(kind) {
        return Err(Refusal::NoSuch);
    }
    if model::NUMBER < argument {
        return Err(Refusal::NoSuch);
    }
    let first = groups::width(kind);
    let count = first + groups::width(argument);
    if out.len() < count {
        return Err(Refusal::TooShort);
    }
    groups::put_number(out, 0, kind);
    groups::put_number(out, first, argument);
    Ok(count)
}
