// Records on the questions of two texts, and what is answered to them.
ghost use Rattle.std.specs.Prelude.{◌≡◌, ◌↔◌, IfOk, IsTrue, decimal};
ghost use Rattle.vectors.specs.Records.{number, Fits};

use crate::fault::Fault;
use crate::fields::number;
use judge::judge::judge;
use judge::verdict::Verdict;
use judge::workspace::Workspace;
use rules::refusal::Refusal;
use rules::signals::SignalList;
use tables::question::Question;
use walk::outline::Outline;

// A record over the texts of a question, and how it is answered.
#[derive(Drop)]
pub struct RecordCase {
    pub list: Vec<u8>,
    pub kept: Vec<u8>,
    pub broken: Vec<u8>,
    pub record: Vec<u8>,
    pub answer: Judgement,
}

// What is answered to a record: what it shows, or a refusal by its number, since a row has no offset or length, which a
// `Refusal` carries.
pub type Judgement = Result<Verdict, usize>;

// Reads a number: 0 is "none", 255 is "run", and any other is a refusal's.
pub fn read_judgement(field: &str) -> Result<Judgement, Fault>
    ensures { IfOk result (λ judgement. decimal (number judgement) ≡ field.now) }
{
    match number(field)? {
        0 => Ok(Ok(Verdict::None)),
        255 => Ok(Ok(Verdict::Run)),
        refusal => Ok(Err(refusal)),
    }
}

impl RecordCase {
    // Does what was found fit?
    pub fn fits(&self, found: Result<Verdict, Refusal>) -> bool
        ensures { IsTrue result ↔ Fits self.now.answer found }
    {
        self.answer == found.map_err(|refusal| usize::from(refusal.number()))
    }

    // What the library answers. A table of texts has an outline, since a lawful list has at most 16 names.
    pub fn judge(&self) -> Result<Verdict, Refusal> {
        let list = self.list.as_slice();
        let question = Question::read_strictly(list, self.kept.as_slice(), self.broken.as_slice())?;
        let outline = Outline::of(&question.table).ok_or(Refusal::List)?;
        let signals = SignalList::lenient(list).len();
        judge(
            &outline,
            signals,
            self.record.as_slice(),
            &mut Workspace::new(),
        )
    }
}
