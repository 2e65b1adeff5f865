// The lines that the entries of a rule are known to have, so that no entry is numbered twice under one sign.
ghost use Rattle.std.specs.Prelude.{◌≡◌, ◌<◌, replicate, None};
ghost use Rattle.tables.specs.Memos.{known, learnt};

use rules::rule::LONGEST;

// An entry of a rule by its number, and its sign: where that is false, the entry is negated.
#[derive(Clone, Copy)]
pub(crate) struct Signed(pub(crate) u16, pub(crate) bool);

// For each entry two places, for its negation and for itself. A rule has no more entries than its text has bytes.
#[derive(Drop)]
pub(crate) struct Memo {
    pub(crate) numbers: [[Option<u8>; 2]; LONGEST],
}

impl Memo {
    // Nothing is known.
    pub(crate) fn new() -> Memo
        ensures { result.numbers ≡ replicate 512 (replicate 2 None) }
    {
        Memo {
            numbers: [[None; 2]; LONGEST],
        }
    }

    // The number of the line of a signed entry.
    pub(crate) fn recall(&self, part: Signed) -> Option<u8>
        requires { part.0 < 512 }
        ensures { result ≡ known self.now part.1 part.0 }
    {
        let Signed(entry, sign) = part;
        self.numbers[entry as usize][usize::from(sign)]
    }

    // Keeps the number of the line of a signed entry.
    pub(crate) fn learn(&mut self, part: Signed, number: u8)
        requires { part.0 < 512 }
        ensures { self.new ≡ learnt self.old part.1 part.0 number }
    {
        let Signed(entry, sign) = part;
        self.numbers[entry as usize][usize::from(sign)] = Some(number);
    }
}
