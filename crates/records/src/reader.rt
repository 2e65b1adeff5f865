// Reading the bytes of a record from its front.
ghost use Rattle.std.specs.Prelude.{◌≡◌, []};
ghost use Rattle.records.specs.Parsing.{byte, count, taken_by, end, given, StartsWith, SplitsAt};

use crate::coded::{Coded, Number};

// What is left to read.
#[derive(Drop)]
pub(crate) struct Reader<'a> {
    pub(crate) rest: &'a [u8],
}

impl<'a> Reader<'a> {
    // Nothing has been read yet.
    pub(crate) fn new(bytes: &'a [u8]) -> Reader<'a>
        ensures { result.rest.now ≡ bytes.now }
    {
        Reader { rest: bytes }
    }

    // The next byte.
    pub(crate) fn byte(&mut self) -> Option<u8>
        ensures { byte self.old.rest.now ≡ given result self.new.rest.now }
    {
        self.rest.split_off_first().copied()
    }

    // The next N bytes.
    pub(crate) fn bytes<const N: usize>(&mut self) -> Option<[u8; N]>
        ensures { SplitsAt N self.old.rest.now result self.new.rest.now }
    {
        let bytes = front(self.rest)?;
        self.rest = &self.rest[N..];
        Some(bytes)
    }

    // How many items follow: 1 to `top`.
    pub(crate) fn count(&mut self, top: usize) -> Option<usize>
        ensures { count top self.old.rest.now ≡ given result self.new.rest.now }
    {
        let n = usize::from(u16::read(self)?);
        (1..=top).contains(&n).then_some(n)
    }

    // A field, which is there and not zero, or absent.
    pub(crate) fn field<T: Number>(&mut self, there: bool) -> Option<T>
        ensures { taken_by T.parsed (λ value. T.eq value T.ZERO) T.ZERO there self.old.rest.now ≡ given result self.new.rest.now }
    {
        if !there {
            return Some(T::ZERO);
        }
        let value = T::read(self)?;
        if value != T::ZERO { Some(value) } else { None }
    }

    // The record has no byte more.
    pub(crate) fn end(&self) -> Option<()>
        ensures { end self.now.rest.now ≡ given result [] }
    {
        self.rest.is_empty().then_some(())
    }
}

// The first N bytes.
fn front<const N: usize>(all: &[u8]) -> Option<[u8; N]>
    ensures { StartsWith N all.now result }
{
    all.first_chunk().copied()
}
