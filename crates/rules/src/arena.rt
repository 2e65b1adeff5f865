// A formula held without allocation: entries whose operands are earlier entries.
ghost use Rattle.std.specs.Prelude.{◌≡◌, ℕ, ◌+◌, ◌-◌, ◌<◌, ◌≤◌, true, [], ◌∷◌, ◌++◌, length};
ghost use Rattle.rules.specs.Entries.{below, last_meaning, Ordered};
ghost use Rattle.rules.specs.Formula.{size};

use crate::rule::LONGEST;
use crate::syntax::Entry;
use arrayvec::ArrayVec;
use std::marker::Model;

// At most as many entries as a rule text has bytes. A clause sees their list.
#[derive(Drop)]
pub struct Arena {
    entries: ArrayVec<Entry, LONGEST>,
}

impl Model for Arena {
    ghost use Rattle.std.specs.Prelude.{List, length};
    ghost use Rattle.rules.specs.declared.syntax.Entry.{Entry};
    ghost use Rattle.rules.specs.Entries.{Ordered};

    ghost Value = { List Entry };

    ghost view = { λ a. a.entries.items };

    ghost invariant = { λ a. Ordered a.entries.items (length a.entries.items) };
}

// One formula: the last entry stands for it, and there is one entry for each of its symbols.
#[derive(Drop)]
pub struct Rule {
    pub(crate) arena: Arena,
    ghost rooted: { 0 < length arena },
    ghost few: { length arena ≤ 512 },
    ghost ordered: { Ordered arena (length arena) },
    ghost whole: { length arena ≡ size (last_meaning arena) },
}

impl Arena {
    pub(crate) fn new() -> Arena
        ensures { result ≡ [] }
    {
        Arena {
            entries: ArrayVec::new(),
        }
    }

    // Adds an entry, and gives its number.
    pub(crate) fn push(&mut self, entry: Entry) -> u16
        requires room { length self.old < LONGEST }
        requires operands { below (length self.old) entry ≡ true }
        ensures entries { self.new ≡ self.old ++ entry ∷ [] }
        ensures number { result ≡ length self.old }
    {
        let number = self.entries.len();
        self.entries.push(entry);
        number as u16
    }

    // The rule whose formula the last entry stands for. The entries are looked at, since a proof learns here that they are few and
    // ordered, which every `Rule` says of itself.
    pub(crate) fn rule(self) -> Rule
        requires rooted { 0 < length self }
        requires whole { length self ≡ size (last_meaning self) }
        ensures { result.arena ≡ self }
    {
        let _entries = self.entries();
        Rule { arena: self }
    }

    // How many entries there are.
    pub(crate) fn len(&self) -> usize
        ensures { result ≡ length self.now }
    {
        self.entries.len()
    }

    // The entries, operands before what they are operands of.
    pub(crate) fn entries(&self) -> &[Entry]
        ensures entries { result.now ≡ self.now }
        ensures few { length result.now ≤ LONGEST }
        ensures ordered { Ordered result.now (length result.now) }
    {
        self.entries.as_slice()
    }
}
