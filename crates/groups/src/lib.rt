// A number of a drill file, in groups of seven bits: read and written at a position of a slice that is lent.
#![tactic(auto)]

mod answers;
mod bits;
mod reading;
mod writing;

ghost use Rattle.std.specs.Prelude.{◌≡◌};
ghost use Rattle.model.specs.Number.{read_number};
ghost use Rattle.groups.specs.Numbers.{number_of, bytes_of, write_number};

pub use answers::{Groups, Number, Spoilt};
use bits::{goes_on, low};
pub use writing::{put_number, width};

// The number at a position of a file.
pub fn read_number(file: &[u8], at: usize) -> Result<Number, Spoilt>
    ensures { number_of result ≡ read_number file.now at }
{
    let Some(&b) = file.get(at) else {
        return Err(Spoilt { place: file.len() });
    };
    if goes_on(b) {
        return reading::second_group(file, at, low(b));
    }
    Ok(Number {
        value: low(b),
        next: at + 1,
    })
}

// The bytes of a number, in the shortest form; none for one over the largest.
pub fn split(value: u32) -> Option<Groups>
    ensures { bytes_of result ≡ write_number value }
{
    if model::NUMBER < value {
        return None;
    }
    Some(writing::shortest(value))
}
