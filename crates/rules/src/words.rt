// Tokens as words of the grammar, and the words that a formula owes.
ghost use Rattle.std.specs.Prelude.{◌≡◌};
ghost use Rattle.rules.specs.Reading.{word_of};
ghost use Rattle.rules.specs.Words.{ReadsOn, Hears, HearsWord, HearsSign, HearsClose};

use crate::reader::{Reader, Token};
use crate::refusal::{Fault, FaultKind};
use crate::syntax::{Atom, Binary, Word};

impl From<Token<'_>> for Word {
    ghost from_gives = { λ token word. word ≡ word_of token };

    fn from(token: Token) -> Word {
        match token {
            Token::Name(_, signal) => Word::Leaf(Atom::Signal(signal)),
            Token::True => Word::Leaf(Atom::True),
            Token::False => Word::Leaf(Atom::False),
            Token::Unary(sign) => Word::Prefix(sign),
            Token::Binary(sign) => Word::Infix(sign),
            Token::Open => Word::Open,
            Token::Close => Word::Close,
        }
    }
}

// Each call says that list and text stay (`ReadsOn`): held by `&` beside a place by `&mut`, the three would travel together.
impl Reader<'_> {
    // The next word with its offset, or `None` at the end.
    pub(crate) fn next_word(&mut self) -> Result<Option<(usize, Word)>, Fault>
        ensures same { ReadsOn self.old self.new }
        ensures hears { Hears self.old result self.new }
    {
        Ok(self.next_token()?.map(|(at, token)| (at, token.into())))
    }

    // The next word with its offset; where the text ends, it is missing.
    pub(crate) fn word(&mut self) -> Result<(usize, Word), Fault>
        ensures same { ReadsOn self.old self.new }
        ensures hears { HearsWord self.old result self.new }
    {
        let end = self.text.len();
        self.next_word()?.ok_or(FaultKind::Form.at(end))
    }

    // A sign between two formulas. It and the bracket differ in what they take and what they give; a method over both would
    // take a closure for two lines.
    pub(crate) fn sign(&mut self) -> Result<Binary, Fault>
        ensures same { ReadsOn self.old self.new }
        ensures hears { HearsSign self.old result self.new }
    {
        match self.word()? {
            (_, Word::Infix(sign)) => Ok(sign),
            (at, _) => Err(FaultKind::Form.at(at)),
        }
    }

    // A closing bracket.
    pub(crate) fn close(&mut self) -> Result<(), Fault>
        ensures same { ReadsOn self.old self.new }
        ensures hears { HearsClose self.old result self.new }
    {
        match self.word()? {
            (_, Word::Close) => Ok(()),
            (at, _) => Err(FaultKind::Form.at(at)),
        }
    }
}
