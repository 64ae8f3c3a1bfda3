// Writing: numbers into a lent part that has room for them.
ghost use Rattle.std.specs.Prelude.{◌≡◌, ℕ, ◌+◌, ◌≤◌, length, get_or};
ghost use Rattle.std.proofs.lemmas.List.Edits.{sets};
ghost use Rattle.model.specs.Limits.{number_most};
ghost use Rattle.model.specs.Writing.{numbers_bytes};

use groups::{put_number, width};

// How many bytes numbers take, one after the other.
pub(crate) fn total_width(list: &[u32]) -> usize
    requires { (i : ℕ) → get_or list.now i 0 ≤ number_most }
    ensures { result ≡ length (numbers_bytes list.now) }
{
    let mut sum: usize = 0;
    for &n in list {
        sum += width(n);
    }
    sum
}

// Writes numbers from a position on, and gives the position after them.
pub(crate) fn put_numbers(out: &mut [u8], at: usize, list: &[u32]) -> usize
    requires { (at + length (numbers_bytes list.now) ≤ length out.old) × ((i : ℕ) → get_or list.now i 0 ≤ number_most) }
    ensures { (result ≡ at + length (numbers_bytes list.now)) × (out.new ≡ sets out.old at (numbers_bytes list.now)) }
{
    let mut next = at;
    for &n in list {
        next = put_number(out, next, n);
    }
    next
}
