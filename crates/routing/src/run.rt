// A run as a table: a row for each signal, a column for each position, brackets around the cycle.
use crate::bytes::Shown;
use crate::words::Names;
use graph::sets::has;
use std::fmt;
use std::ops::Range;

// So many positions are shown.
pub const SHOWN_POSITIONS: usize = 24;

// A name and the blanks after it are as wide as the word `position` and one blank more.
const COLUMN: usize = 9;

// A run over a list of names.
#[derive(Clone, Copy)]
pub struct RunTable<'a> {
    pub lead: &'a [u16],
    pub cycle: &'a [u16],
    pub list: &'a [u8],
}

impl fmt::Display for RunTable<'_> {
    fn fmt<W: fmt::Write>(&self, f: &mut fmt::Formatter<W>) -> fmt::Result {
        let lead = self.lead.len();
        let length = lead.saturating_add(self.cycle.len());
        f.write_str("\n  position ")?;
        numbers(0..lead, f)?;
        f.write_str(" [")?;
        numbers(lead..length, f)?;
        f.write_str(" ]")?;
        // Counted by hand, since a list that is unlawful may have more names than a byte has numbers: `zip` would end with them.
        let mut signal = 0u8;
        for name in Names::of(self.list) {
            let shown = Shown(name);
            write!(f, "\n  {shown}")?;
            f.write_repeated(" ", COLUMN.saturating_sub(name.len()))?;
            states(self.lead, signal, f)?;
            f.write_str(" [")?;
            states(self.cycle, signal, f)?;
            f.write_str(" ]")?;
            signal = signal.saturating_add(1);
        }
        Ok(())
    }
}

// Writes the numbers of positions.
fn numbers<W: fmt::Write>(positions: Range<usize>, f: &mut fmt::Formatter<W>) -> fmt::Result {
    for number in positions {
        write!(f, " {number:>3}")?;
    }
    Ok(())
}

// Writes whether a signal is on, at each position.
fn states<W: fmt::Write>(positions: &[u16], signal: u8, f: &mut fmt::Formatter<W>) -> fmt::Result {
    for position in positions {
        f.write_str(if has(*position, signal) {
            "  on"
        } else {
            "   ."
        })?;
    }
    Ok(())
}
