// The clerk's program: reads commands, a line each, and says in plain sentences what it does.
//
// `command` tells what a line asks for, `desk` remembers what was given, and `clerk`, `drawing` and `judgement` say what
// comes of it; `texts` has the two
// texts of a question; `formula`, `table`, `nodes`, `run`, `refused`, `words` and `bytes` show what is told.
#![tactic(auto)]

mod bytes;
mod clerk;
mod command;
mod desk;
mod drawing;
mod formula;
mod judgement;
mod nodes;
mod refused;
mod run;
mod table;
mod texts;
mod words;

use desk::Desk;
use std::io;
use std::io::{BufRead, BufReader};

// Lines are bytes: one that is no UTF-8 is taken as any other.
fn main(rt: HostRuntime) -> io::Result<()> {
    let mut desk = Desk::new();
    for line in BufReader::new(rt.alloc(), rt.stdin())?.split(rt.alloc(), b'\n') {
        desk.take(&rt, line?.as_slice())?;
    }
    desk.close(&rt)
}
