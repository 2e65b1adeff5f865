// What a line of cases says. Its fields are parted by single blanks:
//
//   rule LIST TEXT REFUSAL OFFSET LINES CHOICES NEGLINES NEGCHOICES NODES VERDICT
//   list BYTES lawful|unlawful
//   ask LIST LINES LIMIT ANSWER NODES
use crate::answer::{Answer, read_answer};
use crate::fault::Fault;
use crate::fields::{bytes, given};
use crate::lines::read_lines;
use std::alloc::Global;
use std::str::from_utf8;
use tables::line::Line;

// A line of cases. A new kind of case has its variant here and its arm in `Row::read`.
#[derive(Drop)]
pub enum Row {
    // a line that begins with '#'
    Comment,
    Rule(RuleCase),
    List(ListCase),
    Ask(AskCase),
}

// A rule text over a list of signals, and how it is answered.
#[derive(Drop)]
pub struct RuleCase {
    pub list: Vec<u8>,
    pub text: Vec<u8>,
    pub answer: Answer,
}

// A table by its lines, and how many nodes its graph has, where that is said. What is asked of it, and how it is
// answered, no layer knows yet.
#[derive(Drop)]
pub struct AskCase {
    pub lines: Vec<Line>,
    pub nodes: Option<usize>,
}

// A list of signals, and whether it is lawful.
#[derive(Drop)]
pub struct ListCase {
    pub list: Vec<u8>,
    pub lawful: bool,
}

impl Row {
    // Reads a line, which has exactly the fields of its kind.
    pub fn read(heap: Global, line: &[u8]) -> Result<Row, Fault> {
        if line.starts_with(b"#") {
            return Ok(Row::Comment);
        }
        let fields: Vec<&str> = from_utf8(line)?.split(' ').collect(heap)?;
        match fields.as_slice() {
            ["rule", list, text, answer @ ..] => Ok(Row::Rule(RuleCase {
                list: bytes(heap, list)?,
                text: bytes(heap, text)?,
                answer: read_answer(answer)?,
            })),
            ["list", list, lawful @ ("lawful" | "unlawful")] => Ok(Row::List(ListCase {
                list: bytes(heap, list)?,
                lawful: *lawful == "lawful",
            })),
            ["ask", list, lines, _, _, nodes] => {
                let _list = bytes(heap, list)?;
                Ok(Row::Ask(AskCase {
                    lines: read_lines(heap, lines)?,
                    nodes: given(nodes)?,
                }))
            }
            _ => Err(Fault::Malformed),
        }
    }
}
