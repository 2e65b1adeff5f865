// Numbering lines one by one.
ghost use Rattle.std.specs.Prelude.{◌≡◌, ◌<◌, ◌≤◌, true, [], ◌∷◌, ◌++◌, ◌↔◌, IsTrue, IsSome, OnSome, IfNone};
ghost use Rattle.tables.specs.Limits.{Chooses};
ghost use Rattle.tables.specs.Lines.{under, is_dual_choice, total, choices};
ghost use Rattle.tables.specs.Numbering.{enter};
ghost use Rattle.tables.specs.Tables.{lines_of, drafted, Next, Goes};

use crate::limits::RULE_CHOICES;
use crate::line::Line;
use crate::numbering::number;
use crate::table::{Draft, TABLE_CHOICES, TABLE_LINES, Table};

impl Draft {
    // No lines yet.
    pub(crate) fn new() -> Draft
        ensures { drafted result ≡ [] }
    {
        Draft {
            lines: [Line::True; TABLE_LINES],
            len: 0,
        }
    }

    // The lines in their order.
    pub(crate) fn lines(&self) -> &[Line]
        ensures { result.now ≡ drafted self.now }
    {
        &self.lines[..self.len]
    }

    // How many of them are choice lines.
    pub(crate) fn choices(&self) -> usize
        ensures { result ≡ choices (drafted self.now) }
    {
        self.lines().iter().filter(|line| line.is_choice()).count()
    }

    // Are there no more of them than a table may have? The lemma is named for the search, so that a count made here would be proved
    // too, and a wrong one refused for its number.
    #[tactic(auto, using(crate::proofs::Counts::total_counts))]
    pub(crate) fn has_few_choices(&self) -> bool
        ensures { IsTrue result ↔ choices (drafted self.now) ≤ 16 }
    {
        self.choices() <= TABLE_CHOICES
    }

    // How many are choice lines in the negation's normal form. One method for both counts would want a clause about the test
    // that is longer than the two chains.
    pub(crate) fn dual_choices(&self) -> usize
        ensures { result ≡ total is_dual_choice (drafted self.now) }
    {
        self.lines()
            .iter()
            .filter(|line| line.is_dual_choice())
            .count()
    }

    // Does either form have over 8 choice lines? Those of the negation are the form's lines of ∧ and □.
    pub(crate) fn is_choosy(&self) -> bool
        ensures { IsTrue result ↔ Chooses (drafted self.now) }
    {
        self.choices() > RULE_CHOICES || self.dual_choices() > RULE_CHOICES
    }

    // Gives a line its number, the old one where the line is there; `None`, and nothing changed, where a new one does not fit.
    pub(crate) fn enter(&mut self, line: Line) -> Option<u8>
        requires { under self.old.len line ≡ true }
        ensures goes { Goes (enter line (drafted self.old)) (drafted self.new) result }
        ensures full { IfNone result (drafted self.new ≡ drafted self.old) }
    {
        let number = number(&mut self.lines, self.len, line)?;
        self.len = self.len.max(number + 1);
        Some(number as u8)
    }

    // Adds a line, if it may come next, and gives its number.
    pub(crate) fn push(&mut self, line: Line) -> Option<u8>
        ensures next { IsSome result ↔ Next (drafted self.old) line }
        ensures added { OnSome result (drafted self.new ≡ drafted self.old ++ (line ∷ [])) }
    {
        if !line.is_under(self.len) {
            return None;
        }
        let next = self.len;
        let number = self.enter(line)?;
        (number as usize == next).then_some(number)
    }

    // The table of these lines.
    pub(crate) fn table(self) -> Table
        requires some { 0 < self.len }
        requires few { choices (drafted self) ≤ 16 }
        ensures { lines_of result ≡ drafted self }
    {
        Table { draft: self }
    }
}
