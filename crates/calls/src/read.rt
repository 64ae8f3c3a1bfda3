// The line of a file, and of each reading from it.
use drillfile::Cursor;
use std::io::Result;
use sums::{of_bytes, of_record};

pub(crate) fn file_line(out: &impl Print, file: &[u8]) -> Result<()> {
    println!(out; "b {} {}", file.len(), of_bytes(file))
}

pub(crate) fn number_line(out: &impl Print, file: &[u8], position: usize) -> Result<()> {
    match drillfile::read_number(file, position) {
        Ok(number) => println!(out; "n {position} 0 0 {} {}", number.value, number.next),
        Err(spoilt) => println!(out; "n {position} 11 {} - -", spoilt.place),
    }
}

// The event at a position, and where the next one is read: none after the file's end or a refusal.
pub(crate) fn event_line(out: &impl Print, file: &[u8], position: usize) -> Result<Option<usize>> {
    let got = drillfile::read_event(file, Cursor { at: position });
    let next = got.next.at;
    match got.event {
        Ok(Some(event)) => {
            println!(out; "e {position} 0 0 {} {} {next}", event.kind, event.argument)?;
            Ok(Some(next))
        }
        Ok(None) => {
            println!(out; "e {position} 0 0 - - {next}")?;
            Ok(None)
        }
        Err(spoilt) => {
            println!(out; "e {position} 11 {} - - {next}", spoilt.place)?;
            Ok(None)
        }
    }
}

// The header at a position, and where its first event is read: none after a refused one.
pub(crate) fn header_line(out: &impl Print, file: &[u8], position: usize) -> Result<Option<usize>> {
    let h = drillfile::read_header(file, Cursor { at: position });
    let next = h.next.at;
    let sum = of_record(h.network);
    match h.outcome {
        Ok(()) => {
            println!(out; "r {position} 0 0 {next} {sum}")?;
            Ok(Some(next))
        }
        Err(refusal) => {
            println!(out;
                "r {position} {} {} {next} {sum}",
                refusal.answer(),
                refusal.place()
            )?;
            Ok(None)
        }
    }
}
