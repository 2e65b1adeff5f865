// Cuts a rule text into tokens.
ghost use Rattle.std.specs.Prelude.{◌≡◌, ℕ, ◌+◌, ◌<◌, ◌≤◌, length};
ghost use Rattle.rules.specs.Reading.{Reads, width};

use crate::letters::{is_blank, is_in_name, run_length};
use crate::refusal::{Fault, FaultKind};
use crate::signals::SignalList;
use crate::syntax::{Binary, Unary};

#[derive(Clone, Copy, Debug, PartialEq, Eq)]
pub enum Token<'a> {
    // the name as it stands in the text, and the signal's number
    Name(&'a [u8], u8),
    True,
    False,
    Unary(Unary),
    Binary(Binary),
    Open,
    Close,
}

impl Token<'_> {
    // How many bytes of the text the token takes.
    fn width(&self) -> usize
        ensures { result ≡ width self.now }
    {
        match self {
            Token::Name(name, _) => name.len(),
            _ => 1,
        }
    }
}

// Steps through a text by a place in it, since offsets are what it answers; what stands before `at` has been handed out.
#[derive(Drop)]
pub struct Reader<'a> {
    pub(crate) list: SignalList<'a>,
    pub(crate) text: &'a [u8],
    pub(crate) at: usize,
    ghost within: { at ≤ length text.now },
}

impl<'a> Reader<'a> {
    // A reader at the text's beginning.
    pub fn new(list: SignalList<'a>, text: &'a [u8]) -> Reader<'a>
        ensures list { result.list.bytes.now ≡ list.entry.bytes.now }
        ensures text { result.text.now ≡ text.now }
        ensures at { result.at ≡ 0 }
    {
        Reader { list, text, at: 0 }
    }

    // The next token with its offset, or `None` at the end. A fault leaves the reader at its offset.
    pub fn next_token(&mut self) -> Result<Option<(usize, Token<'a>)>, Fault>
        ensures list { self.new.list.bytes.now ≡ self.old.list.bytes.now }
        ensures text { self.new.text.now ≡ self.old.text.now }
        ensures reads { Reads self.old.list.bytes.now self.old.text.now self.old.at result self.new.at }
    {
        let text = self.text;
        let at = self.at + run_length(&text[self.at..], is_blank);
        self.at = at;
        let Some(first) = text.get(at) else {
            return Ok(None);
        };
        let token = match *first as char {
            'T' => Token::True,
            'F' => Token::False,
            '~' => Token::Unary(Unary::Not),
            'A' => Token::Unary(Unary::Always),
            'E' => Token::Unary(Unary::Eventually),
            'N' => Token::Unary(Unary::Next),
            '&' => Token::Binary(Binary::And),
            '|' => Token::Binary(Binary::Or),
            '>' => Token::Binary(Binary::Implies),
            '=' => Token::Binary(Binary::Equivalent),
            '(' => Token::Open,
            ')' => Token::Close,
            // A guard, since after a range pattern a proof does not know what `_` rules out.
            letter if letter.is_ascii_lowercase() => {
                let name = &text[at..at + run_length(&text[at..], is_in_name)];
                let signal = self.list.number_of(name).ok_or(FaultKind::Signal.at(at))?;
                Token::Name(name, signal)
            }
            _ => return Err(FaultKind::Letter.at(at)),
        };
        self.at = at + token.width();
        Ok(Some((at, token)))
    }
}
