// What the programs of docs/CALLS.md share: the largest number, the generator, the checksum. Beside it sums and casts that no number breaks.
#![tactic(auto)]

mod generator;
mod number;
mod sum;

pub use generator::Draws;
pub use number::{double, narrow, plus, rest};
pub use sum::{of_bytes, of_record};

// G of docs/CALLS.md.
pub const HUGE: usize = 4_294_967_295;
