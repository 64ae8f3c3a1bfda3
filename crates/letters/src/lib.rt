// A page of a lent part that has room for what is written on it: bytes, words and decimal numbers.
// Public for `lines` and `replay` alone, so these functions may require that room: docs/EXCEPTIONS.md.
#![tactic(auto)]

mod digits;
mod page;
mod table;

pub use digits::digit;
pub use page::Page;
pub use table::{TABLE, THOUSAND, Table, rows};
