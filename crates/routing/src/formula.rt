// A formula in words, each compound in brackets.
ghost use Rattle.std.specs.Prelude.{◌≡◌, ℕ, ◌<◌, length, Some};
ghost use Rattle.std.specs.Fmt.{WritesOnOk};
ghost use Rattle.rules.specs.Entries.{Ordered, meaning};
ghost use Rattle.rules.specs.Rules.{formula_of};
ghost use Rattle.rules.specs.Signals.{names};
ghost use Rattle.routing.specs.Phrases.{Standing, leaf, opening, between, phrase};

use crate::bytes::Shown;
use crate::words::name_of;
use rules::arena::Rule;
use rules::syntax::{Atom, Binary, Entry, Unary};
use std::fmt;
use std::fmt::Display;

// A rule that was read over a list of names.
#[derive(Clone, Copy)]
pub struct Formula<'a, 'b> {
    pub rule: &'a Rule,
    pub list: &'b [u8],
}

impl fmt::Display for Formula<'_, '_> {
    ghost output = { λ s. Some (phrase (names s.list.now) (formula_of s.rule.now)) };

    fn fmt<W: fmt::Write>(&self, f: &mut fmt::Formatter<W>) -> fmt::Result {
        let entries = self.rule.entries();
        show(entries, entries.len() - 1, self.list, f)
    }
}

// Writes the formula of one entry. Operands are earlier entries, so it ends.
fn show<W: fmt::Write>(
    entries: &[Entry],
    at: usize,
    list: &[u8],
    f: &mut fmt::Formatter<W>,
) -> fmt::Result
    requires ordered { Ordered entries.now (length entries.now) }
    requires stands { Standing entries.now }
    requires within { at < length entries.now }
    ensures { WritesOnOk W.write_str_gives f.old result (phrase (names list.now) (meaning entries.now (length entries.now) at)) f.new }
{
    match entries[at] {
        Entry::Leaf(atom) => show_atom(atom, list, f),
        Entry::One(sign, inner) => {
            f.write_str(opening(sign))?;
            show(entries, inner as usize, list, f)?;
            f.write_str(")")
        }
        Entry::Two(sign, left, right) => {
            f.write_str("(")?;
            show(entries, left as usize, list, f)?;
            f.write_str(between(sign))?;
            show(entries, right as usize, list, f)?;
            f.write_str(")")
        }
    }
}

// Writes a constant, or a signal by its name.
fn show_atom<W: fmt::Write>(atom: Atom, list: &[u8], f: &mut fmt::Formatter<W>) -> fmt::Result
    ensures { WritesOnOk W.write_str_gives f.old result (leaf (names list.now) atom) f.new }
{
    match atom {
        Atom::True => f.write_str("true"),
        Atom::False => f.write_str("false"),
        Atom::Signal(number) => Shown(name_of(list, number)).fmt(f),
    }
}

// What stands before the operand.
fn opening(sign: Unary) -> &'static str
    ensures { result.now ≡ opening sign }
{
    match sign {
        Unary::Not => "(not ",
        Unary::Always => "(always ",
        Unary::Eventually => "(eventually ",
        Unary::Next => "(next ",
    }
}

// What stands between the operands.
fn between(sign: Binary) -> &'static str
    ensures { result.now ≡ between sign }
{
    match sign {
        Binary::And => " and ",
        Binary::Or => " or ",
        Binary::Implies => " implies ",
        Binary::Equivalent => " equals ",
    }
}
