// A normal table: numbered lines, each over earlier ones.
ghost use Rattle.std.specs.Prelude.{◌≡◌, ◌<◌, ◌≤◌, length, take};
ghost use Rattle.tables.specs.Lines.{Earlier, Apart, choices};

use crate::line::Line;

// A table has at most so many lines, and so many choice lines.
pub const TABLE_LINES: usize = 121;

pub const TABLE_CHOICES: usize = 16;

// The lines that a numbering has so far, perhaps none, and any number of choice lines: operands before their line, and no line
// twice. The array and its length stand side by side, since the numbering of keys is lent the whole array and fills it.
#[derive(Drop)]
pub(crate) struct Draft {
    pub(crate) lines: [Line; TABLE_LINES],
    pub(crate) len: usize,
    ghost room: { length lines ≡ 121 },
    ghost short: { len ≤ 121 },
    ghost earlier: { Earlier (take len lines) },
    ghost apart: { Apart (take len lines) },
}

// A finished draft: one line at least, and at most 16 choice lines.
#[derive(Drop)]
pub struct Table {
    pub(crate) draft: Draft,
    ghost some: { 0 < draft.len },
    ghost few: { choices (take draft.len draft.lines) ≤ 16 },
}
