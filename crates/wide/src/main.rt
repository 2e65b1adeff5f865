// Walks all branches of a node with sixteen choice lines.
#![tactic(auto)]

use std::{array, io};
use tables::line::Line;
use tables::table::Table;
use walk::branches::Branches;
use walk::outline::Outline;

// Sixteen times: a signal now, or next.
fn wide() -> Option<Table> {
    let lines: [Line; 63] = array::from_fn(|k| line(k as u8));
    Table::from_lines(&lines)
}

// Sixteen signals, each of them next, each now or next, and all of that.
fn line(k: u8) -> Line {
    match k {
        0..16 => Line::Literal(k, true),
        16..32 => Line::Next(k - 16),
        32..48 => Line::Or(k - 32, k - 16),
        48 => Line::And(32, 33),
        _ => Line::And(k - 1, k - 15),
    }
}

fn outline() -> Option<Outline> {
    Outline::of(&wide()?)
}

fn main(rt: HostRuntime) -> io::Result<()> {
    match outline() {
        Some(outline) => {
            let (count, mix) = Branches::new(&outline, outline.initial()).fold(
                (0u64, 0u128),
                |(count, mix), branch| (
                    count.wrapping_add(1),
                    mix ^ branch.successor.label.wrapping_mul(3) ^ u128::from(branch.on),
                ),
            );
            println!(rt; "{count} {mix}")?;
        }
        None => println!(rt; "no table")?,
    }
    Ok(())
}
