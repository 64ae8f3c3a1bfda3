// Writing: a number into a lent part that has room for it.
ghost use Rattle.std.specs.Prelude.{◌≡◌, ◌+◌, ◌≤◌, length};
ghost use Rattle.std.proofs.lemmas.List.Edits.{sets};
ghost use Rattle.model.specs.Limits.{number_most};
ghost use Rattle.model.specs.Number.{number_bytes};
ghost use Rattle.groups.specs.Numbers.{bytes_in};

use crate::answers::Groups;
use crate::bits::{last, more, rest};

// The bytes of a number that is not over the largest, in the shortest form.
pub(crate) fn shortest(value: u32) -> Groups
    requires { value ≤ number_most }
    ensures { bytes_in result ≡ number_bytes value }
{
    let high = rest(value);
    if high == 0 {
        return Groups::One(last(value));
    }
    let top = rest(high);
    if top == 0 {
        return Groups::Two(more(value), last(high));
    }
    Groups::Three(more(value), more(high), last(top))
}

// How many bytes a number takes.
pub fn width(value: u32) -> usize
    requires { value ≤ number_most }
    ensures { result ≡ length (number_bytes value) }
{
    match shortest(value) {
        Groups::One(_) => 1,
        Groups::Two(_, _) => 2,
        Groups::Three(_, _, _) => 3,
    }
}

// Writes a number at a position, and gives the position after it.
pub fn put_number(out: &mut [u8], at: usize, value: u32) -> usize
    requires { (value ≤ number_most) × (at + length (number_bytes value) ≤ length out.old) }
    ensures { (result ≡ at + length (number_bytes value)) × (out.new ≡ sets out.old at (number_bytes value)) }
{
    match shortest(value) {
        Groups::One(a) => {
            out[at] = a;
            at + 1
        }
        Groups::Two(a, b) => {
            out[at] = a;
            out[at + 1] = b;
            at + 2
        }
        Groups::Three(a, b, c) => {
            out[at] = a;
            out[at + 1] = b;
            out[at + 2] = c;
            at + 3
        }
    }
}
