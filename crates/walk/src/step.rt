// Where a line leads that is reached.
ghost use Rattle.std.specs.Prelude.{◌≡◌, ℕ, ◌<◌};
ghost use Rattle.graph.specs.Numbers.{eventuality};
ghost use Rattle.tables.specs.Lines.{line};
ghost use Rattle.walk.specs.Outlines.{outlined};
ghost use Rattle.walk.specs.Walk.{see, bring, defer, switch_on, switch_off, steps, step_list};

use crate::found::{Found, Step};
use crate::place::Place;
use graph::sets::{has, with};
use tables::line::Line;

// Each puts one number into one field, as the definitions of the same names do; one method for all would take the field
// as a closure, and say less.
impl Found {
    fn see(self, i: u8) -> Found
        requires { i < 128 }
        ensures { result ≡ see self i }
    {
        Found {
            seen: with(self.seen, i),
            ..self
        }
    }

    fn bring(self, i: u8) -> Found
        requires { i < 128 }
        ensures { result ≡ bring self i }
    {
        Found {
            next: with(self.next, i),
            ..self
        }
    }

    fn defer(self, e: u8) -> Found
        requires { e < 16 }
        ensures { result ≡ defer self e }
    {
        Found {
            later: with(self.later, e),
            ..self
        }
    }

    fn switch_on(self, s: u8) -> Found
        requires { s < 16 }
        ensures { result ≡ switch_on self s }
    {
        Found {
            on: with(self.on, s),
            ..self
        }
    }

    fn switch_off(self, s: u8) -> Found
        requires { s < 16 }
        ensures { result ≡ switch_off self s }
    {
        Found {
            off: with(self.off, s),
            ..self
        }
    }
}

impl Place<'_> {
    // Where the line leads, which is seen.
    pub(crate) fn step(&self, f: Found) -> Step
        ensures { step_list result ≡ steps (line (outlined self.now.outline.now) self.now.k) self.now.k (eventuality (outlined self.now.outline.now) self.now.k) f }
    {
        match self.line() {
            Line::True => Step::One(f),
            Line::False => Step::Dead,
            Line::Literal(s, true) if has(f.off, s) => Step::Dead,
            Line::Literal(s, false) if has(f.on, s) => Step::Dead,
            Line::Literal(s, true) => Step::One(f.switch_on(s)),
            Line::Literal(s, false) => Step::One(f.switch_off(s)),
            Line::And(i, j) => Step::One(f.see(i).see(j)),
            Line::Or(i, j) => Step::Two(f.see(i), f.see(j)),
            Line::Always(i) => Step::One(f.see(i).bring(self.k)),
            Line::Eventually(i) => Step::Two(f.see(i), f.defer(self.number())),
            Line::Next(i) => Step::One(f.bring(i)),
        }
    }
}
