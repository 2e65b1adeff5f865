// A text that is refused, and where.
use crate::bytes::{Caret, Shown};
use rules::refusal::Refusal;
use std::fmt;

// The text that was refused, with a caret under the byte at the offset; nothing without an offset.
#[derive(Clone, Copy)]
pub struct Pointed<'a> {
    pub refusal: Refusal,
    pub text: &'a [u8],
}

impl fmt::Display for Pointed<'_> {
    fn fmt<W: fmt::Write>(&self, f: &mut fmt::Formatter<W>) -> fmt::Result {
        match self.refusal.offset() {
            Some(offset) => {
                let text = Shown(self.text);
                let caret = Caret(offset);
                write!(f, "\n  {text}\n  {caret}")
            }
            None => Ok(()),
        }
    }
}
