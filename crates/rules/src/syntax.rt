// The parts of a formula, and the words that spell it.
ghost use Rattle.std.specs.Prelude.{◌≡◌};
ghost use Rattle.rules.specs.Entries.{nothing};

// A formula without parts.
#[derive(Clone, Copy, Debug, PartialEq, Eq)]
pub enum Atom {
    True,
    False,
    // by its number in the signal list
    Signal(u8),
}

#[derive(Clone, Copy, Debug, PartialEq, Eq)]
pub enum Unary {
    Not,
    Always,
    Eventually,
    Next,
}

#[derive(Clone, Copy, Debug, PartialEq, Eq)]
pub enum Binary {
    And,
    Or,
    Implies,
    Equivalent,
}

// What a token is to the grammar.
#[derive(Clone, Copy, Debug, PartialEq, Eq)]
pub enum Word {
    Leaf(Atom),
    Prefix(Unary),
    Infix(Binary),
    Open,
    Close,
}

// An entry of a rule's arena; operands are given by the numbers of their entries.
#[derive(Clone, Copy, Debug, PartialEq, Eq)]
pub enum Entry {
    Leaf(Atom),
    One(Unary, u16),
    Two(Binary, u16, u16),
}

// What fills the places of an arena that hold no entry yet.
impl Default for Entry {
    ghost is_default = { λ entry. entry ≡ nothing };

    fn default() -> Entry {
        Entry::Leaf(Atom::True)
    }
}
