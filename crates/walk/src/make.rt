// Making the outline of a table.
ghost use Rattle.std.specs.Prelude.{◌≡◌};
ghost use Rattle.tables.specs.Lines.{Lawful};
ghost use Rattle.tables.specs.Tables.{lines_of};
ghost use Rattle.walk.specs.Fits.{Narrow};
ghost use Rattle.walk.specs.Outlines.{outlined, OutlineOf};

use crate::fit::{is_and, is_narrow, set_of, stays};
use crate::outline::Outline;
use tables::line::Line;
use tables::table::{TABLE_LINES, Table};

impl Outline {
    // The outline of a table; `None` where a signal has a number from 16 on.
    pub fn of(table: &Table) -> Option<Outline>
        ensures { OutlineOf (lines_of table.now) result }
    {
        let given = table.lines();
        if given.iter().all(|line| is_narrow(*line)) {
            Some(outline(given))
        } else {
            None
        }
    }
}

fn outline(given: &[Line]) -> Outline
    requires lawful { Lawful given.now }
    requires narrow { Narrow given.now }
    ensures { outlined result ≡ given.now }
{
    let len = given.len() as u8;
    let mut lines = [Line::True; TABLE_LINES];
    lines[..given.len()].copy_from_slice(given);
    let eventualities: u128 = set_of(len, |k| given[k as usize].is_eventuality());
    Outline {
        lines,
        len,
        eventualities,
        stays: set_of(len, |k| stays(given[k as usize])),
        ands: set_of(len, |k| is_and(given[k as usize])),
        all: set_of(eventualities.count_ones() as u8, |_| true),
    }
}
