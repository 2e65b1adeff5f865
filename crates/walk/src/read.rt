// Reading an outline.
ghost use Rattle.std.specs.Prelude.{◌≡◌, ℕ, ◌<◌, ◌≤◌, length};
ghost use Rattle.tables.specs.Lines.{is_eventuality, total, Earlier};
ghost use Rattle.walk.specs.Outlines.{outlined};

use crate::outline::Outline;
use crate::place::Place;
use tables::line::Line;

impl Outline {
    // The lines of the table, in their order.
    pub fn lines(&self) -> &[Line]
        ensures are { result.now ≡ outlined self.now }
        ensures some { 0 < length result.now }
        ensures short { length result.now ≤ 121 }
        ensures earlier { Earlier result.now }
    {
        &self.lines[0..self.len as usize]
    }

    // How many eventualities there are.
    pub fn eventualities(&self) -> u8
        ensures { result ≡ total is_eventuality (outlined self.now) }
    {
        self.eventualities.count_ones() as u8
    }

    // The line with the number k.
    pub(crate) fn at(&self, k: u8) -> Place<'_>
        requires { k < self.now.len }
        ensures outline { result.outline.now ≡ self.now }
        ensures number { result.k ≡ k }
    {
        Place { outline: self, k }
    }
}
