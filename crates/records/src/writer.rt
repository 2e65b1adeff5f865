// Writing bytes and fields, one after another.
ghost use Rattle.std.specs.Prelude.{[], ◌∷◌, cond, length};
ghost use Rattle.records.specs.Appending.{Room, Wrote};

use crate::coded::Number;

// A buffer, and the place in it where the next byte goes. The caller lends the buffer whole, and the record is to stand at
// its start: so a place in it is plainer than a slice that shrinks.
#[derive(Drop)]
pub(crate) struct Writer<'a> {
    pub(crate) buffer: &'a mut [u8],
    pub(crate) at: usize,
}

impl Writer<'_> {
    // These bytes.
    pub(crate) fn bytes(&mut self, bytes: &[u8])
        requires { Room self.old (length bytes.now) }
        ensures { Wrote self.old self.new bytes.now }
    {
        let end = self.at + bytes.len();
        self.buffer[self.at..end].copy_from_slice(bytes);
        self.at = end;
    }

    // One byte.
    pub(crate) fn byte(&mut self, value: u8)
        requires { Room self.old 1 }
        ensures { Wrote self.old self.new (value ∷ []) }
    {
        self.bytes(&[value]);
    }

    // A field, or nothing where it is zero.
    pub(crate) fn field<T: Number>(&mut self, value: T)
        requires { Room self.old T.most }
        ensures { Wrote self.old self.new (cond (T.eq value T.ZERO) [] (T.written value)) }
    {
        if value != T::ZERO {
            value.write(self);
        }
    }
}
