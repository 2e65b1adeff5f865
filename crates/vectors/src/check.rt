// Holds a case against the library.
ghost use Rattle.std.specs.Prelude.{IsTrue, ◌↔◌};
ghost use Rattle.vectors.specs.Answers.{Judged, Fits};

use crate::answer::{Answer, Counts};
use rules::refusal::Refusal;
use rules::signals::SignalList;
use std::alloc::{AllocError, Global};
use survey::survey;
use tables::limits::NormalRule;
use tables::question::Question;
use tables::table::Table;
use walk::outline::Outline;

// Graphs of more nodes are not counted.
const NODES: usize = 1024;

// What the library says of a rule over a list.
pub fn judge(list: &[u8], text: &[u8]) -> Result<Counts, Refusal>
    ensures { Judged list.now text.now result }
{
    let rule = NormalRule::read(SignalList::try_from(list)?, text)?;
    let kept = Question::keep(&rule);
    let broken = Question::break_only(&rule);
    Ok(Counts {
        lines: kept.table.lines().len(),
        choices: kept.table.choices(),
        negation_lines: broken.table.lines().len(),
        negation_choices: broken.table.choices(),
    })
}

// Does what was found fit the case?
pub fn agrees(answer: &Answer, found: &Result<Counts, Refusal>) -> bool
    ensures { IsTrue result ↔ Fits answer.now found.now }
{
    *found == answer.map(|measures| measures.counts)
}

// How many nodes the graph of keeping a rule has; `None` where it is not counted.
pub fn nodes_of_rule(heap: Global, list: &[u8], text: &[u8]) -> Result<Option<usize>, AllocError> {
    match Question::read_strictly(list, text, &[]) {
        Ok(question) => nodes_of_table(heap, &question.table),
        Err(_) => Ok(None),
    }
}

// The same of a table.
pub fn nodes_of_table(heap: Global, table: &Table) -> Result<Option<usize>, AllocError> {
    let Some(outline) = Outline::of(table) else {
        return Ok(None);
    };
    let count = survey(heap, &outline, NODES)?.len();
    Ok((count <= NODES).then_some(count))
}
