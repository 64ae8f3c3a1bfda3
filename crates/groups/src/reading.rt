// Reading: the further groups of a number.
ghost use Rattle.std.specs.Prelude.{◌≡◌, ◌+◌, ◌<◌, length, drop};
ghost use Rattle.model.specs.Limits.{group};
ghost use Rattle.model.specs.Number.{placed, join as join_to, number_in};
ghost use Rattle.groups.specs.Numbers.{number_of};

use crate::answers::{Number, Spoilt};
use crate::bits::{goes_on, join, low};

// The number at a position whose first group goes on.
pub(crate) fn second_group(file: &[u8], at: usize, first: u32) -> Result<Number, Spoilt>
    requires { (at < length file.now) × (first < group) }
    ensures { number_of result ≡ placed at (join_to first (number_in 2 (drop (at + 1) file.now))) }
{
    let Some(&b) = file.get(at + 1) else {
        return Err(Spoilt { place: at });
    };
    if goes_on(b) {
        return third_group(file, at, first, low(b));
    }
    if b == 0 {
        return Err(Spoilt { place: at });
    }
    Ok(Number {
        value: join(low(b), first),
        next: at + 2,
    })
}

// The number at a position whose first two groups go on.
fn third_group(file: &[u8], at: usize, first: u32, second: u32) -> Result<Number, Spoilt>
    requires { (at + 1 < length file.now) × (first < group) × (second < group) }
    ensures { number_of result ≡ placed at (join_to first (join_to second (number_in 1 (drop (at + 2) file.now)))) }
{
    let Some(&c) = file.get(at + 2) else {
        return Err(Spoilt { place: at });
    };
    if goes_on(c) {
        return Err(Spoilt { place: at });
    }
    if c == 0 {
        return Err(Spoilt { place: at });
    }
    Ok(Number {
        value: join(join(low(c), second), first),
        next: at + 3,
    })
}
