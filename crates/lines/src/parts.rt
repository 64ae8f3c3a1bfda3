// The parts of an event's line after the ordinal, each with the byte after it.
ghost use Rattle.std.specs.Prelude.{◌≡◌, ◌++◌};
ghost use Rattle.model.specs.Text.{ascii, digits};
ghost use Rattle.letters.specs.Puts.{Room, Put};
ghost use Rattle.lines.specs.Codes.{packet_word, way_word};

use letters::{Page, THOUSAND, Table, digit};

// An answer: nearly every one has one digit.
pub(crate) fn answer<'a>(page: Page<'a>, n: u32) -> Page<'a>
    requires { Room page (digits n ++ ascii " ") }
    ensures { Put page.entry (digits n ++ ascii " ") result }
{
    if n < 10 {
        return page.bytes([digit(n as usize), b' ']);
    }
    page.any(n)
}

// A packet, by its code. A code above that of none needs no bound of its own.
pub(crate) fn packet<'a>(page: Page<'a>, table: &Table, code: u32) -> Page<'a>
    requires { Room page (packet_word code ++ ascii " ") }
    ensures { Put page.entry (packet_word code ++ ascii " ") result }
{
    if code < model::EVENTS {
        let n = code as usize;
        return page.million(table, n / THOUSAND, n % THOUSAND);
    }
    if code == model::EVENTS {
        return page.bytes(*b"- ");
    }
    page.any(code)
}

// Where a packet went, by its code.
pub(crate) fn way<'a>(page: Page<'a>, table: &Table, code: usize) -> Page<'a>
    requires { Room page (way_word code ++ ascii "\n") }
    ensures { Put page.entry (way_word code ++ ascii "\n") result }
{
    if code < model::ENDS {
        return page.small(table, code, b'\n');
    }
    if code == model::ENDS {
        return page.bytes(*b"in\n");
    }
    if code == model::ENDS + 1 {
        return page.bytes(*b"lost\n");
    }
    if code == model::ENDS + 2 {
        return page.bytes(*b"end\n");
    }
    page.bytes(*b"-\n")
}
