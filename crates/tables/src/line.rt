// The lines of a normal table.
ghost use Rattle.std.specs.Prelude.{◌≡◌};
ghost use Rattle.tables.specs.Lines.{is_choice, is_dual_choice, is_eventuality, under};
ghost use Rattle.tables.specs.Parts.{leaf, signed};

use rules::syntax::Atom;

// One line; operands are given by the numbers of earlier lines.
#[derive(Clone, Copy, PartialEq)]
pub enum Line {
    True,
    False,
    // a signal, or its negation where the flag is false
    Literal(u8, bool),
    And(u8, u8),
    Or(u8, u8),
    Always(u8),
    Eventually(u8),
    Next(u8),
}

impl Line {
    // Is it a line of ∨ or ◇?
    pub fn is_choice(&self) -> bool
        ensures { result ≡ is_choice self.now }
    {
        matches!(self, Line::Eventually(_) | Line::Or(_, _))
    }

    // Is it a line of ∧ or □? In the negation's normal form its dual is a choice line.
    pub(crate) fn is_dual_choice(&self) -> bool
        ensures { result ≡ is_dual_choice self.now }
    {
        matches!(self, Line::And(_, _) | Line::Always(_))
    }

    // Is it a line of ◇?
    pub fn is_eventuality(&self) -> bool
        ensures { result ≡ is_eventuality self.now }
    {
        matches!(self, Line::Eventually(_))
    }

    // Do its operands have numbers below this one?
    pub(crate) fn is_under(&self, number: usize) -> bool
        ensures { result ≡ under number self.now }
    {
        let is_below = |operand: u8| usize::from(operand) < number;
        match *self {
            Line::And(left, right) | Line::Or(left, right) => is_below(left) && is_below(right),
            Line::Always(inner) | Line::Eventually(inner) | Line::Next(inner) => is_below(inner),
            Line::True | Line::False | Line::Literal(_, _) => true,
        }
    }

    // The line itself, or its dual where the sign is false: ∧ for ∨, □ for ◇, T for F, and a signal for its negation.
    pub(crate) fn signed(self, sign: bool) -> Line
        ensures { result ≡ signed sign self }
    {
        if sign {
            return self;
        }
        match self {
            Line::True => Line::False,
            Line::False => Line::True,
            Line::Literal(signal, positive) => Line::Literal(signal, !positive),
            Line::And(left, right) => Line::Or(left, right),
            Line::Or(left, right) => Line::And(left, right),
            Line::Always(inner) => Line::Eventually(inner),
            Line::Eventually(inner) => Line::Always(inner),
            Line::Next(inner) => Line::Next(inner),
        }
    }
}

// An atom is one line.
impl From<Atom> for Line {
    ghost from_gives = { λ atom line. line ≡ leaf atom };

    fn from(atom: Atom) -> Line {
        match atom {
            Atom::True => Line::True,
            Atom::False => Line::False,
            Atom::Signal(signal) => Line::Literal(signal, true),
        }
    }
}
