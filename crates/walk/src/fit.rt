// Questions about one line, and the numbers that pass a test as a set.
ghost use Rattle.std.specs.Prelude.{◌≡◌, ℕ, ◌<◌, ◌≤◌, Bool};
ghost use Rattle.graph.specs.Sets.{set_of};
ghost use Rattle.graph.specs.Unfolding.{stays};
ghost use Rattle.walk.specs.Fits.{narrow, is_and};

use graph::sets::{Mask, with};
use tables::line::Line;

// Has a literal's signal a number below 16?
pub(crate) fn is_narrow(line: Line) -> bool
    ensures { result ≡ narrow line }
{
    match line {
        Line::Literal(signal, _) => signal < 16,
        _ => true,
    }
}

pub(crate) fn is_and(line: Line) -> bool
    ensures { result ≡ is_and line }
{
    matches!(line, Line::And(_, _))
}

// Does a line stay as it is put into a label?
pub(crate) fn stays(line: Line) -> bool
    ensures { result ≡ stays line }
{
    !matches!(line, Line::True | Line::And(_, _))
}

// The set of the numbers below `count` that pass a test.
pub(crate) fn set_of<M: Mask, F: Fn(u8) -> bool>(count: u8, test: F) -> M
    requires fits { count ≤ M.WIDTH }
    requires callable { (k : ℕ) → k < count → F.pre test k }
    ensures { (f : ℕ → Bool) → ((k : ℕ) (b : Bool) → k < count → F.post test k b → b ≡ f k)
        → M.number result ≡ set_of count f }
{
    let mut set = M::default();
    for k in 0..count {
        if test(k) {
            set = with(set, k);
        }
    }
    set
}
