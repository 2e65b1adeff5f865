// The lines of a table as rows write them, with a semicolon between two:
//
//   T  F  +SIGNAL  -SIGNAL  &LEFT,RIGHT  |LEFT,RIGHT  AINNER  EINNER  NINNER
ghost use Rattle.std.specs.Prelude.{◌≡◌, ◌∷◌, IfOk, decimal};
ghost use Rattle.vectors.specs.Tables.{line_field};

use crate::fault::Fault;
use crate::fields::number;
use std::alloc::Global;
use tables::line::Line;

// Reads all lines.
pub fn read_lines(heap: Global, field: &str) -> Result<Vec<Line>, Fault> {
    field.split(';').map(read_line).try_collect(heap)
}

// Reads one line: its kind, and then its operands.
fn read_line(text: &str) -> Result<Line, Fault>
    ensures { IfOk result (λ line. line_field line ≡ text.now) }
{
    let mut rest = text.chars();
    let kind = rest.next().ok_or(Fault::Malformed)?;
    let operands = rest.as_str();
    match kind {
        'T' if operands.is_empty() => Ok(Line::True),
        'F' if operands.is_empty() => Ok(Line::False),
        '+' => Ok(Line::Literal(small(operands)?, true)),
        '-' => Ok(Line::Literal(small(operands)?, false)),
        'A' => Ok(Line::Always(small(operands)?)),
        'E' => Ok(Line::Eventually(small(operands)?)),
        'N' => Ok(Line::Next(small(operands)?)),
        _ => read_two(kind, operands),
    }
}

// Reads a line with two sides.
fn read_two(kind: char, operands: &str) -> Result<Line, Fault>
    ensures { IfOk result (λ line. line_field line ≡ kind ∷ operands.now) }
{
    let (left, right) = operands.split_once(',').ok_or(Fault::Malformed)?;
    let (left, right) = (small(left)?, small(right)?);
    match kind {
        '&' => Ok(Line::And(left, right)),
        '|' => Ok(Line::Or(left, right)),
        _ => Err(Fault::Malformed),
    }
}

// A number that fits a byte.
fn small(field: &str) -> Result<u8, Fault>
    ensures { IfOk result (λ n. decimal n ≡ field.now) }
{
    Ok(u8::try_from(number(field)?)?)
}
