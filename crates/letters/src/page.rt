// The text as far as it is written: a lent part that holds any text, and the position after the bytes written.
ghost use Rattle.std.specs.Prelude.{◌≡◌, [], ◌∷◌, ◌++◌, ◌+◌, ◌≤◌, ◌<◌};
ghost use Rattle.model.specs.Text.{ascii, digits};
ghost use Rattle.letters.specs.Puts.{Room, Put, Opens, Begins};
ghost use Rattle.letters.specs.Digits.{thousand, joined, table_size, half_at};

use crate::digits::digit;
use crate::table::{Table, WIDE};

#[derive(Drop)]
pub struct Page<'a> {
    out: &'a mut [u8; model::TEXT_MOST],
    at: usize,
}

impl<'a> Page<'a> {
    pub fn new(out: &'a mut [u8; model::TEXT_MOST]) -> Page<'a>
        ensures { Opens out.old out.entry.ghost_name result }
    {
        Page { out, at: 0 }
    }

    // A page behind so many bytes, which stay as they are.
    pub fn behind(out: &'a mut [u8; model::TEXT_MOST], bytes: usize) -> Page<'a>
        ensures { Begins out.old out.entry.ghost_name bytes result }
    {
        Page { out, at: bytes }
    }

    // How many bytes are written.
    pub fn len(&self) -> usize
        ensures { result ≡ self.now.at }
    {
        self.at
    }

    pub fn word(self, w: &[u8]) -> Page<'a>
        requires { Room self w.now }
        ensures { Put self.entry w.now result }
    {
        let Page { out, at } = self;
        let next = at + w.len();
        out[at..next].copy_from_slice(w);
        Page { out, at: next }
    }

    // Four bytes that stand side by side elsewhere are one load and one store.
    pub fn bytes<const N: usize>(self, w: [u8; N]) -> Page<'a>
        requires { Room self w }
        ensures { Put self.entry w.entry result }
    {
        self.word(&w)
    }

    // Any number: its digits but the last, then this one.
    pub fn number(self, n: usize) -> Page<'a>
        requires { Room self (digits n) }
        ensures { Put self.entry (digits n) result }
    {
        if n < 10 {
            return self.bytes([digit(n)]);
        }
        self.number(n / 10).bytes([digit(n)])
    }

    // A number below a thousand, and a byte.
    pub fn small(self, table: &Table, n: usize, after: u8) -> Page<'a>
        requires { Room self (digits n ++ after ∷ []) × (n < thousand) }
        ensures { Put self.entry (digits n ++ after ∷ []) result }
    {
        if n < 10 {
            return self.bytes([digit(n), after]);
        }
        let rows = &table.rows;
        let row = WIDE * n;
        if n < 100 {
            return self.bytes([rows[row], rows[row + 1], after]);
        }
        self.bytes([rows[row], rows[row + 1], rows[row + 2], after])
    }

    // Half a row.
    fn half(self, table: &Table, from: usize) -> Page<'a>
        requires { Room self (half_at table.now.rows from) × (from + 4 ≤ table_size) }
        ensures { Put self.entry (half_at table.now.rows from) result }
    {
        let rows = &table.rows;
        self.bytes([rows[from], rows[from + 1], rows[from + 2], rows[from + 3]])
    }

    // A number below a million, and a space: the second half goes over the end of the first, so no branch asks how long that is.
    pub fn million(self, table: &Table, thousands: usize, rest: usize) -> Page<'a>
        requires { Room self (digits (joined thousands rest) ++ ascii " ") × (thousands < thousand) × (rest < thousand) }
        ensures { Put self.entry (digits (joined thousands rest) ++ ascii " ") result }
    {
        if thousands == 0 {
            return self.small(table, rest, b' ');
        }
        let row = WIDE * thousands;
        let next = self.len() + usize::from(table.rows[row + 3]);
        let mut page = self.half(table, row);
        page.at = next;
        page.half(table, WIDE * rest + 4)
    }

    // Any number, and a space.
    pub fn any(self, n: u32) -> Page<'a>
        requires { Room self (digits n ++ ascii " ") }
        ensures { Put self.entry (digits n ++ ascii " ") result }
    {
        self.number(n as usize).bytes([b' '])
    }
}
