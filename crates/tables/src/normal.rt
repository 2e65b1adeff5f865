// The lines of normal forms, numbered: left side, right side, then the form itself.
ghost use Rattle.std.specs.Prelude.{◌≡◌, ◌<◌, ◌≤◌, true, length};
ghost use Rattle.rules.specs.Entries.{Ordered};
ghost use Rattle.rules.specs.Rules.{formula_of};
ghost use Rattle.tables.specs.Lines.{under};
ghost use Rattle.tables.specs.Memos.{Remembers, Remembers-prop};
ghost use Rattle.tables.specs.Normal.{nnf};
ghost use Rattle.tables.specs.Numbering.{enter, place};
ghost use Rattle.tables.specs.Parts.{signed, joined, formulas, form_at, Told, Told-prop};
ghost use Rattle.tables.specs.Tables.{drafted, Goes, Leads};

use crate::line::Line;
use crate::memo::{Memo, Signed};
use crate::table::Draft;
use rules::arena::Rule;
use rules::syntax::{Binary, Entry, Unary};

// A rule's entries while they are numbered: the lines so far, and which of them the entries are known to have.
#[derive(Drop)]
struct Numberer<'a> {
    entries: &'a [Entry],
    draft: Draft,
    memo: Memo,
    ghost few: { length entries.now ≤ 512 },
    ghost ordered: { Ordered entries.now (length entries.now) },
    ghost told: { Told entries.now } by { Told-prop entries.now },
    ghost remembered: { Remembers (formulas entries.now) memo (drafted draft) } by { Remembers-prop (formulas entries.now) memo (drafted draft) },
}

// Each call says that the entries stay: held by `&` beside the rest by `&mut`, the two would travel together.
impl Numberer<'_> {
    // Enters a line, or its dual where the sign is false.
    fn enter(&mut self, line: Line, sign: bool) -> Option<u8>
        requires { under self.old.draft.len line ≡ true }
        ensures goes { Goes (enter (signed sign line) (drafted self.old.draft)) (drafted self.new.draft) result }
        ensures entries { self.new.entries ≡ self.old.entries }
    {
        self.draft.enter(line.signed(sign))
    }

    // Numbers the form of a signed entry, unless its number is known; `None` past 121 lines.
    #[cycle(place_lay_join)]
    fn place(&mut self, part: Signed) -> Option<u8>
        requires { part.0 < length self.old.entries.now }
        ensures goes { Goes (place (form_at self.old.entries.now part) (drafted self.old.draft)) (drafted self.new.draft) result }
        ensures entries { self.new.entries ≡ self.old.entries }
    {
        if let Some(number) = self.memo.recall(part) {
            return Some(number);
        }
        let number = self.lay(part)?;
        self.memo.learn(part, number);
        Some(number)
    }

    // Numbers those of its operands, and then the line over them.
    #[cycle(place_lay_join)]
    fn lay(&mut self, part: Signed) -> Option<u8>
        requires { part.0 < length self.old.entries.now }
        ensures goes { Goes (place (form_at self.old.entries.now part) (drafted self.old.draft)) (drafted self.new.draft) result }
        ensures entries { self.new.entries ≡ self.old.entries }
    {
        let Signed(entry, sign) = part;
        match self.entries[entry as usize] {
            Entry::Leaf(atom) => self.enter(Line::from(atom), sign),
            Entry::One(Unary::Not, inner) => self.place(Signed(inner, !sign)),
            Entry::One(Unary::Always, inner) => {
                let inner = self.place(Signed(inner, sign))?;
                self.enter(Line::Always(inner), sign)
            }
            Entry::One(Unary::Eventually, inner) => {
                let inner = self.place(Signed(inner, sign))?;
                self.enter(Line::Eventually(inner), sign)
            }
            Entry::One(Unary::Next, inner) => {
                let inner = self.place(Signed(inner, sign))?;
                self.enter(Line::Next(inner), sign)
            }
            Entry::Two(Binary::And, left, right) => {
                self.join(Signed(left, sign), Signed(right, sign), sign)
            }
            Entry::Two(Binary::Or, left, right) => {
                self.join(Signed(left, sign), Signed(right, sign), !sign)
            }
            Entry::Two(Binary::Implies, left, right) => {
                self.join(Signed(left, !sign), Signed(right, sign), !sign)
            }
            Entry::Two(Binary::Equivalent, left, right) => {
                let alike = self.join(Signed(left, sign), Signed(right, sign), sign)?;
                let opposite = self.join(Signed(left, !sign), Signed(right, !sign), sign)?;
                self.enter(Line::Or(alike, opposite), sign)
            }
        }
    }

    // Numbers the forms of two signed entries, and then ∧ over both, or ∨ where the sign is false.
    #[cycle(place_lay_join)]
    fn join(&mut self, left: Signed, right: Signed, sign: bool) -> Option<u8>
        requires left { left.0 < length self.old.entries.now }
        requires right { right.0 < length self.old.entries.now }
        ensures goes { Goes (place (joined sign (form_at self.old.entries.now left) (form_at self.old.entries.now right)) (drafted self.old.draft)) (drafted self.new.draft) result }
        ensures entries { self.new.entries ≡ self.old.entries }
    {
        let left = self.place(left)?;
        let right = self.place(right)?;
        self.enter(Line::And(left, right), sign)
    }
}

// Numbers the form of a rule, or of its negation, after the lines that are there, and gives them all and its number; `None`
// past 121 lines.
pub(crate) fn number_rule(rule: &Rule, draft: Draft, sign: bool) -> Option<(Draft, u8)>
    ensures { Leads (place (nnf sign (formula_of rule.now)) (drafted draft)) result }
{
    let entries = rule.entries();
    let last = Signed((entries.len() - 1) as u16, sign);
    let mut numberer = Numberer {
        entries,
        draft,
        memo: Memo::new(),
    };
    let number = numberer.place(last)?;
    Some((numberer.draft, number))
}
