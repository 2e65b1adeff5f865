// Making a table of given lines, and reading one.
ghost use Rattle.std.specs.Prelude.{◌≡◌, ◌-◌, length, Decides};
ghost use Rattle.std.specs.Cmp.{on_per};
ghost use Rattle.std.specs.Cmp.Lexicographic.{pointwise, lists_per};
ghost use Rattle.std.specs.Ordering.{on};
ghost use Rattle.tables.specs.contracts.line.LinePartialEq.TheImpl.Laws.{laws-law};
ghost use Rattle.tables.specs.Lines.{line, Lawful, choices};
ghost use Rattle.tables.specs.Tables.{lines_of, MadeOf, At, eventuality};

use crate::line::Line;
use crate::table::{Draft, Table};

impl Table {
    // The table of these lines, if they are lawful.
    pub fn from_lines(lines: &[Line]) -> Option<Table>
        ensures { MadeOf lines.now result }
    {
        let mut draft = Draft::new();
        for line in lines {
            draft.push(*line)?;
        }
        if lines.is_empty() || !draft.has_few_choices() {
            return None;
        }
        Some(draft.table())
    }

    // The lines in their order.
    pub fn lines(&self) -> &[Line]
        ensures are { result.now ≡ lines_of self.now }
        ensures lawful { Lawful result.now }
    {
        self.draft.lines()
    }

    // The line with this number.
    pub fn line(&self, number: usize) -> Option<Line>
        ensures { At (lines_of self.now) number result }
    {
        self.lines().get(number).copied()
    }

    // The last line, which stands for the whole.
    pub fn last(&self) -> Line
        ensures { result ≡ line (lines_of self.now) (length (lines_of self.now) - 1) }
    {
        self.lines().last().copied().unwrap()
    }

    // How many of the lines are choice lines. The lemma is named for the search, so that a count made here would be proved too, and
    // a wrong one refused for its number.
    #[tactic(auto, using(crate::proofs::Counts::total_counts))]
    pub fn choices(&self) -> usize
        ensures { result ≡ choices (lines_of self.now) }
    {
        self.draft.choices()
    }

    // The number of a line among the eventualities, where it is one.
    pub fn eventuality(&self, number: usize) -> Option<usize>
        ensures { result ≡ eventuality (lines_of self.now) number }
    {
        let lines = self.lines();
        if !lines.get(number)?.is_eventuality() {
            return None;
        }
        let before = &lines[..number];
        Some(before.iter().filter(|line| line.is_eventuality()).count())
    }

    // Are the lines of both the same?
    pub fn same(&self, other: &Table) -> bool
        ensures { Decides result (lines_of self.now ≡ lines_of other.now) }
    {
        self == other
    }
}

// Tables are equal where their lines are, whatever stands in the arrays past them.
impl PartialEq for Table {
    ghost eq = { on lines_of (pointwise ⟦<Line as PartialEq>⟧.eq) };

    ghost laws = { on_per lines_of (lists_per laws-law) };

    fn eq(&self, other: &Table) -> bool {
        self.lines() == other.lines()
    }
}
