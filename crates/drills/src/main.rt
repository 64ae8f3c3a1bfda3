// The stored drills of data/, each one's text or a short form of it, by the rule of docs/DRILLS.md.
#![tactic(auto)]

mod show;

use arrayvec::ArrayString;
use std::fmt::Write;
use std::fs::File;
use std::io::{self, ErrorKind, Read};
use std::rt::Files;

// A name has three digits.
const MOST: usize = 1_000;

fn run(out: &impl Print, from: &mut impl Read) -> io::Result<()> {
    let mut file = streams::input();
    let n = streams::read_full(from, &mut file)?;
    let mut text = [0; model::TEXT_MOST];
    let length = replay::text(&file[..n], &mut text);
    show::text(out, &text[..length])
}

// The drill of a number; false where its file is missing, as is that of a number with more than three digits.
fn drill(rt: &(impl Files + Print), number: usize) -> io::Result<bool> {
    let mut name: ArrayString<9> = ArrayString::new();
    if write!(name, "{number:03}.drill").is_err() {
        return Ok(false);
    }
    match File::open(rt, name.as_str()) {
        Ok(mut file) => {
            println!(rt; "drill {number:03}")?;
            run(rt, &mut file)?;
            Ok(true)
        }
        Err(e) if e.kind() == ErrorKind::NotFound => Ok(false),
        Err(e) => Err(e),
    }
}

// Files by their numbers, up to the first that is missing.
fn main(rt: HostRuntime) -> io::Result<()> {
    for number in 0..MOST {
        if !drill(&rt, number)? {
            break;
        }
    }
    Ok(())
}
