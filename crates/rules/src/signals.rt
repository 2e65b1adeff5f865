// Lists of signal names.
ghost use Rattle.std.specs.Prelude.{◌≡◌, ℕ, ◌+◌, ◌<◌, ◌≤◌, [], length, Some, MatchResult, IsTrue, ◌↔◌};
ghost use Rattle.rules.specs.Letters.{is_name};
ghost use Rattle.rules.specs.Signals.{names, words, number_of, Fits, joined, Lawful, Few, Proper, Distinct, Looked, Checked};
ghost use Rattle.rules.specs.declared.refusal.Refusal.TheVariants.{List as BadList};

use crate::letters::is_in_name;
use crate::refusal::Refusal;

// The names of a lawful list, or no names at all.
#[derive(Clone, Copy)]
pub struct SignalList<'a> {
    pub(crate) bytes: &'a [u8],
    ghost few: { Few (names bytes.now) },
    ghost proper: { Proper (names bytes.now) },
    ghost distinct: { Distinct (names bytes.now) },
}

// May a signal be called so?
fn is_name(word: &[u8]) -> bool
    ensures { result ≡ is_name word.now }
{
    word.len() <= 8
        && word.first().is_some_and(|byte| byte.is_ascii_lowercase())
        && word.iter().all(|byte| is_in_name(*byte))
}

// The place of the first of the list's words that is `name`.
fn place_of(bytes: &[u8], name: &[u8]) -> Option<usize>
    ensures { result ≡ number_of bytes.now name.now }
{
    if bytes.is_empty() {
        return None;
    }
    bytes
        .split(|byte| *byte == b' ')
        .position(|word| word == name)
}

// May this word stand at this place?
fn fits(bytes: &[u8], word: &[u8], number: usize) -> bool
    ensures { IsTrue result ↔ Fits bytes.now word.now number }
{
    number < 16 && is_name(word) && place_of(bytes, word) == Some(number)
}

// Is the list lawful?
fn is_lawful(bytes: &[u8]) -> bool
    ensures { IsTrue result ↔ Lawful bytes.now }
{
    bytes
        .split(|byte| *byte == b' ')
        .enumerate()
        .all(|(number, word)| fits(bytes, word, number))
}

// The names of a lawful list; an unlawful one is refused.
impl<'a> TryFrom<&'a [u8]> for SignalList<'a> {
    type Error = Refusal;

    ghost try_from_gives = { λ bytes r. MatchResult r (λ list. Lawful bytes.now × (list.bytes.now ≡ bytes.now)) (λ refusal. (Lawful bytes.now → ⊥) × (refusal ≡ BadList)) };

    fn try_from(bytes: &'a [u8]) -> Result<SignalList<'a>, Refusal> {
        if is_lawful(bytes) {
            Ok(SignalList { bytes })
        } else {
            Err(Refusal::List)
        }
    }
}

impl<'a> SignalList<'a> {
    // The list check: are these bytes a lawful list?
    pub fn check(bytes: &[u8]) -> Result<(), Refusal>
        ensures answer { Checked bytes.now result }
        ensures names { joined (names bytes.now) ≡ bytes.now }
    {
        SignalList::try_from(bytes).map(|_| ())
    }

    // The names of the list; an unlawful list counts as no names.
    pub fn lenient(bytes: &'a [u8]) -> SignalList<'a>
        ensures lawful { Lawful bytes.now → result.bytes.now ≡ bytes.now }
        ensures unlawful { (Lawful bytes.now → ⊥) → result.bytes.now ≡ [] }
    {
        SignalList::try_from(bytes).unwrap_or(SignalList { bytes: &[] })
    }

    // How many names there are.
    pub fn len(&self) -> u8
        ensures { result ≡ length (names self.now.bytes.now) }
    {
        if self.is_empty() {
            return 0;
        }
        self.bytes.split(|byte| *byte == b' ').count() as u8
    }

    // Are there no names?
    pub fn is_empty(&self) -> bool
        ensures { IsTrue result ↔ (names self.now.bytes.now ≡ []) }
    {
        self.bytes.is_empty()
    }

    // The number of the signal that is called `name`.
    pub fn number_of(&self, name: &[u8]) -> Option<u8>
        ensures number { result ≡ number_of self.now.bytes.now name.now }
        ensures looked { Looked (names self.now.bytes.now) name.now result }
    {
        place_of(self.bytes, name).map(|number| number as u8)
    }
}
