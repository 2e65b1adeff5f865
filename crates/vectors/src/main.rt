// Runs outside cases, a line each, against the library, and counts where the two agree.
//
// `row` tells what a line says, `check` holds it against the library, and `tally` counts.
#![tactic(auto)]

mod answer;
mod check;
mod fault;
mod fields;
mod lines;
mod record;
mod row;
mod tally;

use std::io;
use std::io::{BufRead, BufReader};
use tally::Tally;

fn main(rt: HostRuntime) -> io::Result<()> {
    let mut tally = Tally::new();
    for line in BufReader::new(rt.alloc(), rt.stdin())?.split(rt.alloc(), b'\n') {
        tally.take(&rt, line?.as_slice())?;
    }
    tally.close(&rt)
}
