// Part `open`: openings from lists.
use crate::drawn::{Case, drawn};
use crate::rows::{ROWS, opening};
use std::io::Result;
use sums::{Draws, of_record};

fn line(out: &impl Print, c: &Case) -> Result<()> {
    let o = network::open(c.nodes, c.destination, &c.list);
    let sum = of_record(o.network);
    println!(out;
        "o {} {} {} {} {} {sum}",
        c.nodes,
        c.destination,
        c.list.len(),
        o.answer,
        o.place
    )
}

pub(crate) fn part(out: &impl Print, draws: &mut Draws) -> Result<()> {
    for row in ROWS {
        line(out, &opening(row))?;
    }
    for _ in 0..120 {
        line(out, &drawn(draws))?;
    }
    Ok(())
}
