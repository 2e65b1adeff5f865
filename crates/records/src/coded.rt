// What a record has in bytes of its own: numbers, the high byte first.
ghost use Rattle.std.specs.Prelude.{◌≡◌, ℕ, ◌≤◌, List, length};
ghost use Rattle.records.specs.Appending.{Room, Wrote};
ghost use Rattle.records.specs.Claims.{big};
ghost use Rattle.records.specs.Parsing.{Got, given, number};
ghost use Rattle.records.specs.Puts.{length_word, length_long};

use crate::reader::Reader;
use crate::writer::Writer;

// It is read from its bytes and written as them: `most` of them at most.
pub(crate) trait Coded: Copy + Drop {
    ghost parsed: { List ℕ → Got Self };

    ghost written: { Self → List ℕ };

    ghost most: { ℕ };

    // What stands next, if it is lawful.
    fn read(reader: &mut Reader) -> Option<Self>
        ensures { parsed reader.old.rest.now ≡ given result reader.new.rest.now };

    // Writes its bytes.
    fn write(self, writer: &mut Writer)
        requires { Room writer.old most }
        ensures { Wrote writer.old writer.new (written self) };

    ghost short: { (value : Self) → length (written value) ≤ most };
}

// A number, which has no bytes in a node where it is zero.
pub(crate) trait Number: Coded + PartialEq {
    const ZERO: Self;

    ghost ZERO: { Self };
}

// The impls of the two numbers differ in the width alone; no macro of the repository's may write them.
impl Coded for u16 {
    ghost parsed = { number 2 0 };

    ghost written = { big 2 };

    ghost most = { 2 };

    ghost short = { length_word };

    fn read(reader: &mut Reader) -> Option<u16> {
        Some(u16::from_be_bytes(reader.bytes()?))
    }

    fn write(self, writer: &mut Writer) {
        writer.bytes(&u16::to_be_bytes(self));
    }
}

impl Coded for u64 {
    ghost parsed = { number 8 0 };

    ghost written = { big 8 };

    ghost most = { 8 };

    ghost short = { length_long };

    fn read(reader: &mut Reader) -> Option<u64> {
        Some(u64::from_be_bytes(reader.bytes()?))
    }

    fn write(self, writer: &mut Writer) {
        writer.bytes(&u64::to_be_bytes(self));
    }
}

impl Number for u16 {
    const ZERO: u16 = 0;

    ghost ZERO = { 0 };
}

impl Number for u64 {
    const ZERO: u64 = 0;

    ghost ZERO = { 0 };
}
