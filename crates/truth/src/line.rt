// The truth of one line: at a position, and where the cycle begins.
//
// A line is told by its operands in the same row and by the row after. What always holds, holds now and always from the next
// position on; what eventually holds, holds now or eventually from the next position on. Where the cycle begins, □ asks for
// all of the cycle, and ◇ for some of it.
ghost use Rattle.std.specs.Prelude.{◌≡◌, ℕ, ◌<◌, true, length, Decides, slice_index};
ghost use Rattle.graph.specs.Sets.{has};
ghost use Rattle.truth.specs.Passes.{told, Begins, marked};

use graph::sets::{has, with};
use tables::line::Line;

// Is line k true, by its row, the row after and its position?
pub(crate) fn told(line: Line, k: u8, row: u128, after: u128, position: u16) -> bool
    ensures { result ≡ told line k row after position }
{
    match line {
        Line::True => true,
        Line::False => false,
        Line::Literal(signal, positive) => has(position, signal) == positive,
        Line::And(x, y) => has(row, x) && has(row, y),
        Line::Or(x, y) => has(row, x) || has(row, y),
        Line::Always(x) => has(row, x) && has(after, k),
        Line::Eventually(x) => has(row, x) || has(after, k),
        Line::Next(x) => has(after, x),
    }
}

// Is a line of □ or ◇ true where the cycle begins? Of other lines nothing is asked: false.
pub(crate) fn begins(line: Line, cycle: &[u128]) -> bool
    ensures { Begins line cycle.now result }
{
    match line {
        Line::Always(x) => cycle.iter().all(|row| has(*row, x)),
        Line::Eventually(x) => cycle.iter().any(|row| has(*row, x)),
        _ => false,
    }
}

// The row, with line k where it is true.
pub(crate) fn marked(row: u128, k: u8, truth: bool) -> u128
    requires { k < 128 }
    ensures { result ≡ marked row k truth }
{
    if truth { with(row, k) } else { row }
}
