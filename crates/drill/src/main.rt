// A drill file from standard input, its text to standard output.
#![tactic(auto)]

use std::io;

fn main(rt: HostRuntime) -> io::Result<()> {
    let mut file = streams::input();
    let n = streams::read_full(&mut rt.stdin(), &mut file)?;
    let mut text = [0; model::TEXT_MOST];
    let length = replay::text(&file[..n], &mut text);
    rt.write_all(&text[..length])
}
