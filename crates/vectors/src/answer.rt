// How a rule is answered, by a row's last eight fields.
ghost use Rattle.std.specs.Prelude.{◌≡◌, ◌↔◌, [], ◌∷◌, IfOk, IsTrue};
ghost use Rattle.rules.specs.Refusals.{told, offset_of};
ghost use Rattle.vectors.specs.Answers.{nodes, counted, none_given, refusal_fields, answer_fields, texts};

use crate::fault::Fault;
use crate::fields::{given, number};
use rules::refusal::Refusal;

// What is said of an accepted rule, or why it is refused.
pub type Answer = Result<Measures, Refusal>;

// What is said of an accepted rule: its counts, and what a search for a run that keeps it gives.
#[derive(Clone, Copy, Debug, PartialEq, Eq)]
pub struct Measures {
    pub counts: Counts,
    pub verdict: Verdict,
}

// The lines and choice lines of a rule's normal form, and of that of its negation.
#[derive(Clone, Copy, Debug, PartialEq, Eq)]
pub struct Counts {
    pub lines: usize,
    pub choices: usize,
    pub negation_lines: usize,
    pub negation_choices: usize,
}

// There is a run or none, by a graph of so many nodes; or the graph has more than 1,024. Three cases, so no `Option` or
// `Result` of its own.
#[derive(Clone, Copy, Debug, PartialEq, Eq)]
pub enum Verdict {
    Run(usize),
    None(usize),
    Spent,
}

// Reads the fields: measures stand exactly where the rule is accepted.
pub fn read_answer(fields: &[&str]) -> Result<Answer, Fault>
    ensures { IfOk result (λ answer. answer_fields answer ≡ texts fields.now) }
{
    match fields {
        ["0", "-", measures @ ..] => Ok(Ok(Measures::try_from(measures)?)),
        _ => Ok(Err(read_refusal(fields)?)),
    }
}

// Reads the fields of a refusal: its number and its offset, and no measures.
fn read_refusal(fields: &[&str]) -> Result<Refusal, Fault>
    ensures { IfOk result (λ refusal. refusal_fields refusal ≡ texts fields.now) }
{
    match fields {
        [refusal, offset, measures @ ..] if none_given(measures) => {
            refused(number(refusal)?, given(offset)?)
        }
        _ => Err(Fault::Malformed),
    }
}

// Is none of the six measures given?
fn none_given(measures: &[&str]) -> bool
    ensures { IsTrue result ↔ (texts measures.now ≡ none_given) }
{
    matches!(measures, ["-", "-", "-", "-", "-", "-"])
}

// A refusal by its number, with an offset exactly where it has one.
fn refused(number: usize, offset: Option<usize>) -> Result<Refusal, Fault>
    ensures number { IfOk result (λ r. (told r).0 ≡ number) }
    ensures offset { IfOk result (λ r. offset_of r ≡ offset) }
{
    match (number, offset) {
        (5, None) => Ok(Refusal::Length),
        (6, Some(at)) => Ok(Refusal::Letter(at)),
        (7, Some(at)) => Ok(Refusal::Signal(at)),
        (8, Some(at)) => Ok(Refusal::Form(at)),
        (9, None) => Ok(Refusal::Lines),
        (10, None) => Ok(Refusal::Choices),
        (13, None) => Ok(Refusal::List),
        _ => Err(Fault::Malformed),
    }
}

// How many nodes the graph has, where that is said.
pub fn nodes(answer: &Answer) -> Option<usize>
    ensures { result ≡ nodes answer.now }
{
    answer.ok().and_then(|measures| measures.verdict.nodes())
}

impl TryFrom<&[&str]> for Measures {
    type Error = Fault;

    ghost use Rattle.vectors.specs.Answers.{measures_fields, texts};

    ghost try_from_gives = { λ fields r. IfOk r (λ m. measures_fields m ≡ texts fields.now) };

    // Reads six fields.
    fn try_from(fields: &[&str]) -> Result<Measures, Fault> {
        match fields {
            [
                lines,
                choices,
                negation_lines,
                negation_choices,
                nodes,
                verdict,
            ] => Ok(Measures {
                counts: Counts {
                    lines: number(lines)?,
                    choices: number(choices)?,
                    negation_lines: number(negation_lines)?,
                    negation_choices: number(negation_choices)?,
                },
                verdict: Verdict::try_from((*nodes, *verdict))?,
            }),
            _ => Err(Fault::Malformed),
        }
    }
}

impl TryFrom<(&str, &str)> for Verdict {
    type Error = Fault;

    ghost use Rattle.vectors.specs.Answers.{verdict_fields};

    ghost try_from_gives = { λ fields r. IfOk r (λ v. verdict_fields v ≡ fields.0.now ∷ fields.1.now ∷ []) };

    // Reads two fields, the nodes and the word.
    fn try_from((nodes, word): (&str, &str)) -> Result<Verdict, Fault> {
        match word {
            "run" => Ok(Verdict::Run(number(nodes)?)),
            "none" => Ok(Verdict::None(number(nodes)?)),
            "spent" if nodes == ">1024" => Ok(Verdict::Spent),
            _ => Err(Fault::Malformed),
        }
    }
}

impl Verdict {
    // How many nodes there are, where that is said.
    fn nodes(&self) -> Option<usize>
        ensures { result ≡ counted self.now }
    {
        match *self {
            Verdict::Run(nodes) | Verdict::None(nodes) => Some(nodes),
            Verdict::Spent => None,
        }
    }
}
