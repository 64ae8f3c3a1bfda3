// A block of an array of nodes or lanes, looked at whole, so that it becomes vector code.
ghost use Rattle.std.specs.Prelude.{◌≡◌, ◌+◌, ◌≤◌, length, eqb, get_or};
ghost use Rattle.model.specs.Below.{any};

// How many ends, links or packets one test looks at.
pub const BLOCK: usize = 16;

// Whether the number stands in the block that begins at a place.
pub fn block_has(numbers: &[u16], from: usize, number: u16) -> bool
    requires { from + 16 ≤ length numbers.now }
    ensures { result ≡ any (λ j. eqb (get_or numbers.now (from + j) 0) number) 16 }
{
    let mut some = false;
    for &x in &numbers[from..from + BLOCK] {
        some |= x == number;
    }
    some
}
