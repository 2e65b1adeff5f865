// The rows of a run's truth table, in a table that the caller lends.
//
// They are filled line by line, and each line from the last position to the first: after the last comes the cycle's first.
ghost use Rattle.std.specs.Prelude.{◌≡◌, ◌+◌, ◌<◌, ◌≤◌, length};
ghost use Rattle.tables.specs.Lines.{Earlier};
ghost use Rattle.truth.specs.Passes.{AllJudged};
ghost use Rattle.truth.specs.Rows.{Filled};
ghost use Rattle.walk.specs.Outlines.{outlined};

use crate::line::{begins, marked, told};
use crate::run::Run;
use tables::line::Line;
use walk::outline::Outline;

// Fills a row for each position of the lead-in and the cycle with the lines that are true there. False, and no row is
// touched, where the cycle is empty or there are fewer rows than positions. A plain yes or no: were the rows lent back in an
// `Option`, no clause could say what stands in the others.
pub fn fill(outline: &Outline, lead: &[u16], cycle: &[u16], rows: &mut [u128]) -> bool
    ensures { Filled (outlined outline.now) lead.now cycle.now rows.old result rows.new }
{
    if cycle.is_empty() {
        return false;
    }
    let run = Run { lead, cycle };
    if rows.len() < run.len() {
        return false;
    }
    judge(outline.lines(), &run, &mut rows[..run.len()]);
    true
}

// Judges every line in every row. A line is known by its number, in a row's bits too.
fn judge(lines: &[Line], run: &Run, rows: &mut [u128])
    requires ordered { Earlier lines.now }
    requires short { length lines.now ≤ 121 }
    requires fits { length rows.old ≡ length run.now.lead.now + length run.now.cycle.now }
    ensures { AllJudged lines.now run.now.lead.now run.now.cycle.now (length lines.now) rows.new }
{
    rows.fill(0);
    for k in 0..lines.len() as u8 {
        judge_line(lines, k, run, rows);
    }
}

// Judges line k in every row, by the earlier lines.
fn judge_line(lines: &[Line], k: u8, run: &Run, rows: &mut [u128])
    requires ordered { Earlier lines.now }
    requires one { k < length lines.now }
    requires narrow { k < 128 }
    requires fits { length rows.old ≡ length run.now.lead.now + length run.now.cycle.now }
    requires judged { AllJudged lines.now run.now.lead.now run.now.cycle.now k rows.old }
    ensures { AllJudged lines.now run.now.lead.now run.now.cycle.now (k + 1) rows.new }
{
    let line = lines[k as usize];
    let first = run.lead.len();
    // Backwards, by index: of rows that are written through `iter_mut().rev()` a proof knows no more than how many there are.
    let mut after = marked(rows[first], k, begins(line, &rows[first..]));
    for i in (0..rows.len()).rev() {
        let truth = told(line, k, rows[i], after, run.position(i));
        after = marked(rows[i], k, truth);
        rows[i] = after;
    }
}
