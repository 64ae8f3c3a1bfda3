// A reader: a view over a file's bytes and a position in it. It holds the slice that it was given and copies nothing.
#![tactic(auto)]

ghost use Rattle.std.specs.Prelude.{◌≡◌};
ghost use Rattle.model.specs.File.{read_header};
ghost use Rattle.entries.specs.Outcomes.{seen, event_at};
ghost use Rattle.drillfile.specs.Headers.{HeaderPost};
ghost use Rattle.reader.specs.Readers.{reader_at};

use drillfile::{Cursor, Got, Headed, read_event, read_header};

#[derive(Clone, Copy)]
pub struct Reader<'a> {
    pub file: &'a [u8],
    pub at: usize,
}

impl<'a> Reader<'a> {
    // A reader at the start of a file.
    pub fn new(file: &'a [u8]) -> Reader<'a>
        ensures { result ≡ reader_at file.entry 0 }
    {
        Reader { file, at: 0 }
    }

    // The same slice, at another position.
    pub fn moved(self, at: usize) -> Reader<'a>
        ensures { result ≡ reader_at self.entry.file at }
    {
        Reader {
            file: self.file,
            at,
        }
    }

    // The header at the reader's position, and the position after it.
    pub fn header(self) -> Headed
        ensures { HeaderPost self.entry.at (read_header self.entry.file.now self.entry.at) result }
    {
        read_header(self.file, Cursor { at: self.at })
    }

    // The event at the reader's position, the end, or what is spoilt; and the position after it.
    pub fn next(self) -> Got
        ensures { seen result ≡ event_at self.entry.file.now self.entry.at }
    {
        read_event(self.file, Cursor { at: self.at })
    }
}

// The header that a new reader gives, for callers that hold only the slice.
pub fn header_of(file: &[u8]) -> Headed
    ensures { HeaderPost 0 (read_header file.now 0) result }
{
    Reader::new(file).header()
}

// What a reader moved to a position gives next, for callers that hold only a slice and a number.
pub fn next_at(file: &[u8], at: usize) -> Got
    ensures { seen result ≡ event_at file.now at }
{
    Reader::new(file).moved(at).next()
}
