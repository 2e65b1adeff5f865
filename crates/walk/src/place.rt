// One line of an outline.
ghost use Rattle.std.specs.Prelude.{◌≡◌, ℕ, ◌<◌, true, ◌&&◌};
ghost use Rattle.graph.specs.Numbers.{eventuality};
ghost use Rattle.graph.specs.Pass.{spread};
ghost use Rattle.tables.specs.Lines.{line, under, is_eventuality};
ghost use Rattle.walk.specs.Fits.{narrow};
ghost use Rattle.walk.specs.Outlines.{outlined};

use crate::outline::Outline;
use graph::sets::with;
use tables::line::Line;

// A line of an outline, by its number.
#[derive(Drop)]
pub(crate) struct Place<'a> {
    pub(crate) outline: &'a Outline,
    pub(crate) k: u8,
    ghost within: { k < outline.now.len },
}

impl Place<'_> {
    pub(crate) fn line(&self) -> Line
        ensures is { result ≡ line (outlined self.now.outline.now) self.now.k }
        ensures fits { (under self.now.k result && narrow result) ≡ true }
    {
        self.outline.lines[self.k as usize]
    }

    // The number of the line among the eventualities, where it is one.
    pub(crate) fn number(&self) -> u8
        ensures is { result ≡ eventuality (outlined self.now.outline.now) self.now.k }
        ensures small { is_eventuality (line (outlined self.now.outline.now) self.now.k) ≡ true → result < 16 }
    {
        let below = self.outline.eventualities & ((1 << self.k) - 1);
        below.count_ones() as u8
    }

    // The lines, and the sides of this one, if it is an ∧ line.
    pub(crate) fn spread(&self, lines: u128) -> u128
        ensures { result ≡ spread (line (outlined self.now.outline.now) self.now.k) lines }
    {
        match self.line() {
            Line::And(i, j) => with(with(lines, i), j),
            _ => lines,
        }
    }
}
