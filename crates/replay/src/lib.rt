// A drill file in, the program's whole text out.
#![tactic(auto)]

mod chunk;
mod play;
mod run;

ghost use Rattle.replay.specs.Texts.{TextPost};

use letters::{Page, Table};
use lines::{SPOILT, refused};
use run::run;

// The text of a file's bytes, at the front of a part that holds any text; the bytes after it stay.
pub fn text(file: &[u8], out: &mut [u8; model::TEXT_MOST]) -> usize
    ensures { TextPost file.now out.old out.new result }
{
    let page = Page::new(out);
    if model::FILE < file.len() {
        return refused(page, SPOILT, model::FILE).len();
    }
    let header = reader::header_of(file);
    if let Err(refusal) = header.outcome {
        return refused(page, refusal.answer() as usize, refusal.place()).len();
    }
    let next = header.next;
    let table = Table::new();
    run(page, file, next.at, header.network, &table).len()
}
