// Why a call is refused. There are sixteen refusals, each with a number and a word; some carry an
// offset into the bytes that were refused, or the length of the record that the call left.
ghost use Rattle.std.specs.Prelude.{◌≡◌, Some};
ghost use Rattle.rules.specs.Refusals.{refusal_of, told, word, offset_of};
ghost use Rattle.rules.specs.Tellings.{telling};

use std::fmt;

// What can be wrong with a rule text of a lawful length.
#[derive(Clone, Copy, Debug, PartialEq, Eq)]
pub enum FaultKind {
    // a byte that starts no token
    Letter,
    // a name that the list does not have
    Signal,
    // a token that cannot stand where it stands, or the end where one is missing
    Form,
}

// The first fault of a rule text, and where it stands.
#[derive(Clone, Copy, Debug, PartialEq, Eq)]
pub struct Fault {
    pub kind: FaultKind,
    pub offset: usize,
}

impl FaultKind {
    // The fault of this kind that stands at the offset.
    pub(crate) fn at(self, offset: usize) -> Fault
        ensures kind { result.kind ≡ self }
        ensures offset { result.offset ≡ offset }
    {
        Fault { kind: self, offset }
    }
}

#[derive(Clone, Copy, Debug, PartialEq, Eq)]
pub enum Refusal {
    Place,
    Job,
    Standing,
    Absent,
    Length,
    Letter(usize),
    Signal(usize),
    Form(usize),
    Lines,
    Choices,
    // with the length of the record that was left
    Spent(usize),
    // with the length of the record that was left
    Full(usize),
    List,
    Record,
    Claim,
    Archive(usize),
}

impl Refusal {
    // The number that docs/REFUSALS.md gives the refusal, and programs print; a cast gives none, since some variants carry values.
    pub fn number(&self) -> u8
        ensures { result ≡ (told self.now).0 }
    {
        match self {
            Refusal::Place => 1,
            Refusal::Job => 2,
            Refusal::Standing => 3,
            Refusal::Absent => 4,
            Refusal::Length => 5,
            Refusal::Letter(_) => 6,
            Refusal::Signal(_) => 7,
            Refusal::Form(_) => 8,
            Refusal::Lines => 9,
            Refusal::Choices => 10,
            Refusal::Spent(_) => 11,
            Refusal::Full(_) => 12,
            Refusal::List => 13,
            Refusal::Record => 14,
            Refusal::Claim => 15,
            Refusal::Archive(_) => 16,
        }
    }

    // The word by which people know it.
    pub fn word(&self) -> &'static str
        ensures { result.now ≡ word self.now }
    {
        match self {
            Refusal::Place => "place",
            Refusal::Job => "job",
            Refusal::Standing => "standing",
            Refusal::Absent => "absent",
            Refusal::Length => "length",
            Refusal::Letter(_) => "letter",
            Refusal::Signal(_) => "signal",
            Refusal::Form(_) => "form",
            Refusal::Lines => "lines",
            Refusal::Choices => "choices",
            Refusal::Spent(_) => "spent",
            Refusal::Full(_) => "full",
            Refusal::List => "list",
            Refusal::Record => "record",
            Refusal::Claim => "claim",
            Refusal::Archive(_) => "archive",
        }
    }

    // The offset of what was refused, where the refusal has one.
    pub fn offset(&self) -> Option<usize>
        ensures { result ≡ offset_of self.now }
    {
        match self {
            Refusal::Letter(at) | Refusal::Signal(at) | Refusal::Form(at) | Refusal::Archive(at) =>
                Some(*at),
            _ => None,
        }
    }
}

// A refusal in words: its number, its word and, where it has one, its offset.
impl fmt::Display for Refusal {
    ghost output = { λ r. Some (telling r) };

    fn fmt<W: fmt::Write>(&self, f: &mut fmt::Formatter<W>) -> fmt::Result {
        let number = self.number();
        let word = self.word();
        write!(f, "{number}, {word}")?;
        match self.offset() {
            Some(offset) => write!(f, ", at offset {offset}"),
            None => Ok(()),
        }
    }
}

// A fault is refused under its own word, with its offset.
impl From<Fault> for Refusal {
    ghost from_gives = { λ f r. r ≡ refusal_of f.kind f.offset };

    fn from(fault: Fault) -> Refusal {
        match fault.kind {
            FaultKind::Letter => Refusal::Letter(fault.offset),
            FaultKind::Signal => Refusal::Signal(fault.offset),
            FaultKind::Form => Refusal::Form(fault.offset),
        }
    }
}
