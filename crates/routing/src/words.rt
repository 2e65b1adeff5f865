// Bytes cut at their blanks.
ghost use Rattle.std.specs.Prelude.{◌≡◌, ℕ, ◌<◌, ◌≤◌, [], length, ◌≢◌, slice_index, slice_index_or};
ghost use Rattle.std.specs.Option.{option_map};
ghost use Rattle.rules.specs.Signals.{names};
ghost use Rattle.routing.specs.Lines.{Cuts, waiting};
ghost use Rattle.std.specs.Iterator.{at_most, YieldsFirstRef};

use crate::bytes::Shown;
use std::fmt;

// What stands before the first blank, and what stands after it where there is one.
pub fn cut(bytes: &[u8]) -> (&[u8], Option<&[u8]>)
    ensures { Cuts bytes.now result.0.now (option_map (λ x. x.now) result.1) }
{
    let end = word_end(bytes);
    let word = &bytes[0..end];
    if end < bytes.len() {
        (word, Some(&bytes[end + 1..]))
    } else {
        (word, None)
    }
}

// How many bytes stand before the first blank.
fn word_end(bytes: &[u8]) -> usize
    ensures within { result ≤ length bytes.now }
    ensures word { (k : ℕ) → k < result → slice_index bytes.now k ≢ 32 }
    ensures blank { result < length bytes.now → slice_index bytes.now result ≡ 32 }
{
    bytes.iter().position(|b| *b == b' ').unwrap_or(bytes.len())
}

// Goes through the names of a list, in their order. `split` would give one empty name where there are no bytes.
#[derive(Drop)]
pub struct Names<'a> {
    // what is still to be cut, after a blank too
    rest: Option<&'a [u8]>,
}

impl<'a> Names<'a> {
    // No bytes are no names.
    pub fn of(list: &'a [u8]) -> Names<'a>
        ensures { waiting (option_map (λ x. x.now) result.rest) ≡ names list.now }
    {
        Names {
            rest: Some(list).filter(|list| !list.is_empty()),
        }
    }
}

impl<'a> Iterator for Names<'a> {
    type Item = &'a [u8];

    ghost remaining = { λ s. at_most (length (waiting (option_map (λ y. y.now) s.rest))) };

    ghost next_gives = { YieldsFirstRef (λ s. waiting (option_map (λ y. y.now) s.rest)) };

    fn next(&mut self) -> Option<&'a [u8]> {
        let (name, rest) = cut(self.rest?);
        self.rest = rest;
        Some(name)
    }
}

// The name with this number, or no bytes where there is none.
pub fn name_of(list: &[u8], number: u8) -> &[u8]
    ensures { result.now ≡ slice_index_or (names list.now) number [] }
{
    Names::of(list).nth(number.into()).unwrap_or(&[])
}

// Each name of a list with its number.
#[derive(Clone, Copy)]
pub struct Numbered<'a>(pub &'a [u8]);

impl fmt::Display for Numbered<'_> {
    fn fmt<W: fmt::Write>(&self, f: &mut fmt::Formatter<W>) -> fmt::Result {
        for (number, name) in (0..=u8::MAX).zip(Names::of(self.0)) {
            if number > 0 {
                f.write_str(", ")?;
            }
            let shown = Shown(name);
            write!(f, "{number} {shown}")?;
        }
        Ok(())
    }
}
