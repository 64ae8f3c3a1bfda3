// What reading a header gives back; specs/ says what it stands for.
use entries::{Cursor, Refusal};
use network::Network;

// A header that was read or refused: the record that it opens, or that of one node; and the position after.
#[derive(Clone, Copy)]
pub struct Headed {
    pub network: Network,
    pub outcome: Result<(), Refusal>,
    pub next: Cursor,
}
