// A normal table made ready for unfolding.
ghost use Rattle.std.specs.Prelude.{◌≡◌, ℕ, ◌<◌, ◌≤◌, length, take};
ghost use Rattle.graph.specs.Numbers.{choice_of};
ghost use Rattle.graph.specs.Pass.{everything};
ghost use Rattle.graph.specs.Sets.{set_of};
ghost use Rattle.walk.specs.Fits.{Fit, event_at, stays_at, and_at};

use tables::line::Line;
use tables::table::TABLE_LINES;

// The lines of a table, the sets of its eventualities, of the lines that stay and of the ∧ lines, and V.
#[derive(Drop)]
pub struct Outline {
    // The lines are an array and a length: the length is a byte, as the numbers of lines are, and no loop over them casts it.
    pub(crate) lines: [Line; TABLE_LINES],
    pub(crate) len: u8,
    pub(crate) eventualities: u128,
    pub(crate) stays: u128,
    pub(crate) ands: u128,
    pub(crate) all: u16,
    ghost low: { 1 ≤ len },
    ghost high: { len ≤ 121 },
    ghost fit: { Fit lines len },
    ghost few: { choice_of (take len lines) len ≤ 16 },
    ghost whole: { length (take len lines) ≡ len },
    ghost events: { eventualities ≡ set_of len (event_at (take len lines)) },
    ghost staying: { stays ≡ set_of len (stays_at (take len lines)) },
    ghost joining: { ands ≡ set_of len (and_at (take len lines)) },
    ghost every: { all ≡ everything (take len lines) },
}
