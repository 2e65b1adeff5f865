// What the clerk says of records.
use crate::clerk::Clerk;
use crate::nodes::{Listed, SHOWN_NODES};
use crate::run::{RunTable, SHOWN_POSITIONS};
use crate::texts::Texts;
use graph::node::Ranked;
use hexadecimal::{HexFault, decode};
use judge::judge::{judge, limits_of};
use judge::verdict::Verdict;
use judge::workspace::Workspace;
use records::claim::Claim;
use records::space::Space;
use rules::refusal::Refusal;
use std::alloc::AllocError;
use std::io;
use tables::question::Question;
use walk::outline::Outline;

impl Clerk<'_> {
    // Takes the two texts of a question and a record in hexadecimal, and judges the record.
    pub(crate) fn judgement(self, parts: &[u8]) -> io::Result<()> {
        let rt = self.rt;
        let Some((texts, digits)) = asked(parts) else {
            return println!(rt;
                "To judge a record write the text to keep, a slash, the text to break, a slash, and the record."
            );
        };
        match decode(rt.alloc(), digits) {
            Ok(record) => self.judge_on_texts(texts, record.as_slice()),
            Err(HexFault::Digits) => {
                println!(rt; "A record is written in small hexadecimal digits.")
            }
            Err(HexFault::Memory) => Err(AllocError.into()),
        }
    }

    // Judges a record on the question of two texts.
    fn judge_on_texts(self, texts: Texts, record: &[u8]) -> io::Result<()> {
        let rt = self.rt;
        match Question::read(self.names(), texts.kept, texts.broken) {
            Ok(question) => match Outline::of(&question.table) {
                Some(outline) => self.judge_on_table(&outline, record),
                None => println!(rt; "A signal of the table has no bit in a position."),
            },
            Err(refusal) => self.tell_refused_question(texts, refusal),
        }
    }

    // Shows what a record claims, and says what it proves on the table.
    fn judge_on_table(self, outline: &Outline, record: &[u8]) -> io::Result<()> {
        let signals = self.names().len();
        let mut space = Space::new();
        match Claim::read(record, limits_of(outline, signals), &mut space) {
            Ok(Claim::Run { lead, cycle }) => self.tell_run(lead, cycle)?,
            Ok(Claim::Graph(nodes)) => self.tell_nodes(nodes)?,
            Err(_) => {}
        }
        let mut work = Workspace::new();
        self.tell_verdict(judge(outline, signals, record, &mut work))
    }

    // Shows a run, if it is not too long.
    fn tell_run(self, lead: &[u16], cycle: &[u16]) -> io::Result<()> {
        let rt = self.rt;
        let run = RunTable {
            lead,
            cycle,
            list: self.list,
        };
        let lead = lead.len();
        let cycle = cycle.len();
        if lead.saturating_add(cycle) > SHOWN_POSITIONS {
            return println!(rt;
                "The record claims a run: lead-in {lead}, cycle {cycle}. Above {SHOWN_POSITIONS} positions it is not shown."
            );
        }
        println!(rt; "The record claims a run: lead-in {lead}, cycle {cycle}.{run}")
    }

    // Shows the nodes of a graph, if they are not too many.
    fn tell_nodes(self, nodes: &[Ranked]) -> io::Result<()> {
        let rt = self.rt;
        let count = nodes.len();
        if count > SHOWN_NODES {
            return println!(rt;
                "The record claims that there is no run. Nodes: {count}. Above {SHOWN_NODES} they are not shown."
            );
        }
        let listed = Listed(nodes);
        println!(rt; "The record claims that there is no run. Nodes: {count}.{listed}")
    }

    // Says what the judge answers.
    fn tell_verdict(self, answer: Result<Verdict, Refusal>) -> io::Result<()> {
        let rt = self.rt;
        match answer {
            Ok(Verdict::Run) => println!(rt; "It is accepted: this run meets the question."),
            Ok(Verdict::None) => println!(rt; "It is accepted: no run meets the question."),
            Err(refusal) => { println!(rt; "The record is refused: {refusal}.") }
        }
    }
}

// The texts of a question, and the digits of a record after a second slash.
fn asked(parts: &[u8]) -> Option<(Texts, &[u8])> {
    let first = Texts::parted(parts)?;
    let second = Texts::parted(first.broken)?;
    let texts = Texts {
        kept: first.kept,
        broken: second.kept,
    };
    Some((texts, second.broken))
}
