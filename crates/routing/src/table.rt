// A normal table, a line each.
use crate::bytes::Shown;
use crate::words::name_of;
use std::fmt;
use std::fmt::Display;
use tables::line::Line;
use tables::table::Table;

// A table over a list of names.
#[derive(Clone, Copy)]
pub struct Lines<'a, 'b> {
    pub table: &'a Table,
    pub list: &'b [u8],
}

// One line of a table, without its number.
#[derive(Clone, Copy)]
struct Body<'a> {
    line: Line,
    list: &'a [u8],
}

impl fmt::Display for Body<'_> {
    fn fmt<W: fmt::Write>(&self, f: &mut fmt::Formatter<W>) -> fmt::Result {
        match self.line {
            Line::True => f.write_str("true"),
            Line::False => f.write_str("false"),
            Line::Literal(signal, true) => Shown(name_of(self.list, signal)).fmt(f),
            Line::Literal(signal, false) => {
                f.write_str("not ")?;
                Shown(name_of(self.list, signal)).fmt(f)
            }
            Line::And(left, right) => write!(f, "{left} and {right}"),
            Line::Or(left, right) => write!(f, "{left} or {right}"),
            Line::Always(inner) => write!(f, "always {inner}"),
            Line::Eventually(inner) => write!(f, "eventually {inner}"),
            Line::Next(inner) => write!(f, "next {inner}"),
        }
    }
}

impl fmt::Display for Lines<'_, '_> {
    fn fmt<W: fmt::Write>(&self, f: &mut fmt::Formatter<W>) -> fmt::Result {
        for (number, line) in self.table.lines().iter().enumerate() {
            let body = Body {
                line: *line,
                list: self.list,
            };
            write!(f, "\n  {number:>3}  {body}")?;
            if line.is_choice() {
                f.write_str(" (choice line")?;
                match self.table.eventuality(number) {
                    Some(eventuality) => write!(f, ", eventuality {eventuality})")?,
                    None => f.write_str(")")?,
                }
            }
        }
        Ok(())
    }
}
