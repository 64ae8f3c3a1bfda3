// The digits of every number below a thousand, made once for a whole text.
ghost use Rattle.std.specs.Prelude.{◌≡◌, ◌*◌, ◌<◌, length};
ghost use Rattle.std.proofs.lemmas.List.Edits.{sets};
ghost use Rattle.letters.specs.Digits.{thousand, wide, table_size, front, back, row_of, digit_rows};

use crate::digits::digit;

pub const THOUSAND: usize = 1000;
// A row has the number's digits, how many they are, its last three digits and a space.
pub(crate) const WIDE: usize = 8;

pub(crate) const HALF: usize = 4;

pub const TABLE: usize = WIDE * THOUSAND;

#[derive(Clone, Copy)]
pub struct Table {
    pub(crate) rows: [u8; TABLE],
    ghost right: { rows ≡ digit_rows },
}

// What stands between the digits and their count is never left in a text.
fn front(n: usize) -> [u8; HALF]
    ensures { result ≡ front n }
{
    let tens = digit(n / 10);
    let ones = digit(n);
    if n < 10 {
        return [ones, ones, ones, 1];
    }
    if n < 100 {
        return [tens, ones, ones, 2];
    }
    [digit(n / 100), tens, ones, 3]
}

fn back(n: usize) -> [u8; HALF]
    ensures { result ≡ back n }
{
    [digit(n / 100), digit(n / 10), digit(n), b' ']
}

fn row(rows: &mut [u8; TABLE], n: usize)
    requires { (n < thousand) × (length rows.old ≡ table_size) }
    ensures { rows.new ≡ sets rows.old (wide * n) (row_of n) }
{
    let at = WIDE * n;
    rows[at..at + HALF].copy_from_slice(&front(n));
    rows[at + HALF..at + WIDE].copy_from_slice(&back(n));
}

// The rows of all numbers below a thousand.
pub fn rows() -> [u8; TABLE]
    ensures { result ≡ digit_rows }
{
    let mut rows = [0u8; TABLE];
    for n in 0..THOUSAND {
        row(&mut rows, n);
    }
    rows
}

impl Table {
    pub fn new() -> Table
        ensures { result.rows ≡ digit_rows }
    {
        Table { rows: rows() }
    }

    // A table of rows that a caller has.
    pub fn of(rows: [u8; TABLE]) -> Table
        requires { rows ≡ digit_rows }
        ensures { result.rows ≡ digit_rows }
    {
        Table { rows }
    }
}
