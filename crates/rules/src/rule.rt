// Reads a rule text as one formula, by recursive descent.
ghost use Rattle.std.specs.Prelude.{◌≡◌, ℕ, ◌+◌, ◌<◌, ◌≤◌, length};
ghost use Rattle.rules.specs.Words.{ReadsOn};
ghost use Rattle.rules.specs.Rules.{Parses, Whole, ReadAs, Alone, Divides, Shows, Grammar};
ghost use Rattle.rules.specs.Formula.{size};
ghost use Rattle.rules.specs.Rules.{formula_of};

use crate::arena::Arena;
pub use crate::arena::Rule;
use crate::reader::Reader;
use crate::refusal::{Fault, FaultKind, Refusal};
use crate::signals::SignalList;
use crate::syntax::{Entry, Word};

// A rule text has at most so many bytes.
pub const LONGEST: usize = 512;

// Reads one formula into the arena, and gives the number of its entry.
fn formula(arena: &mut Arena, reader: &mut Reader) -> Result<u16, Fault>
    requires room { length arena.old ≤ reader.old.at }
    requires short { length reader.old.text.now ≤ LONGEST }
    ensures same { ReadsOn reader.old reader.new }
    ensures parses { Parses reader.old arena.old result reader.new arena.new }
{
    match reader.word()? {
        (_, Word::Leaf(atom)) => Ok(arena.push(Entry::Leaf(atom))),
        (_, Word::Prefix(unary)) => {
            let inner = formula(arena, reader)?;
            Ok(arena.push(Entry::One(unary, inner)))
        }
        (_, Word::Open) => {
            let left = formula(arena, reader)?;
            let binary = reader.sign()?;
            let right = formula(arena, reader)?;
            reader.close()?;
            Ok(arena.push(Entry::Two(binary, left, right)))
        }
        (at, Word::Infix(_) | Word::Close) => Err(FaultKind::Form.at(at)),
    }
}

// Reads a text that is one formula and nothing after it.
fn whole<'a>(list: SignalList<'a>, text: &'a [u8]) -> Result<Rule, Fault>
    requires { length text.now ≤ LONGEST }
    ensures { Whole list.entry.bytes.now text.now result }
{
    let mut reader = Reader::new(list, text);
    let mut arena = Arena::new();
    let _root = formula(&mut arena, &mut reader)?;
    match reader.next_word()? {
        None => Ok(arena.rule()),
        Some((at, _)) => Err(FaultKind::Form.at(at)),
    }
}

impl Rule {
    // The formula that the text spells, or why it spells none. No other answer fits the text; every run keeps or breaks
    // what was read; and what a text spells and where its first fault stands follow from what is owed after each word.
    pub fn read<'a>(list: SignalList<'a>, text: &'a [u8]) -> Result<Rule, Refusal>
        ensures answer { ReadAs list.entry.bytes.now text.now result }
        ensures alone { Alone list.entry.bytes.now text.now result }
        ensures divides { Divides result }
        ensures grammar { Grammar }
    {
        if text.is_empty() || text.len() > LONGEST {
            return Err(Refusal::Length);
        }
        Ok(whole(list, text)?)
    }

    // How many symbols the formula has: constants, names and signs, brackets not counted.
    pub fn size(&self) -> usize
        ensures { result ≡ size (formula_of self.now) }
    {
        self.arena.len()
    }

    // The formula entry by entry, operands before what they are operands of.
    pub fn entries(&self) -> &[Entry]
        ensures { Shows self.now result.now }
    {
        self.arena.entries()
    }
}
