// Counts the cases in which the library agrees, by kind, and tells of each other one.
use crate::answer::{Answer, Counts, nodes};
use crate::check::{agrees, judge, nodes_of_rule, nodes_of_table};
use crate::fault::Fault;
use crate::row::{AskCase, ListCase, Row, RuleCase};
use rules::refusal::Refusal;
use rules::signals::SignalList;
use std::alloc::AllocError;
use std::{fmt, io};
use tables::table::Table;

// What a case is counted under: a rule that is accepted, or refused under this word; a list; or a table.
#[derive(Clone, Copy, Debug, PartialEq, Eq)]
enum Kind {
    Accepted,
    Refused(&'static str),
    Lawful,
    Unlawful,
    Table,
}

impl From<&Answer> for Kind {
    fn from(answer: &Answer) -> Kind {
        match answer {
            Ok(_) => Kind::Accepted,
            Err(refusal) => Kind::Refused(refusal.word()),
        }
    }
}

impl fmt::Display for Kind {
    fn fmt<W: fmt::Write>(&self, f: &mut fmt::Formatter<W>) -> fmt::Result {
        match *self {
            Kind::Accepted => write!(f, "accepted"),
            Kind::Refused(word) => write!(f, "{word}"),
            Kind::Lawful => write!(f, "lists lawful"),
            Kind::Unlawful => write!(f, "lists unlawful"),
            Kind::Table => write!(f, "tables"),
        }
    }
}

// The kinds that come up, in the order in which they are told.
const KINDS: [Kind; 11] = [
    Kind::Accepted,
    Kind::Refused("length"),
    Kind::Refused("letter"),
    Kind::Refused("signal"),
    Kind::Refused("form"),
    Kind::Refused("lines"),
    Kind::Refused("choices"),
    Kind::Refused("list"),
    Kind::Lawful,
    Kind::Unlawful,
    Kind::Table,
];

// In what the library differs from a row.
#[derive(Clone, Copy)]
enum Difference {
    Malformed,
    Rule { expected: Told, found: Told },
    List { lawful: bool },
    NoTable,
    Nodes,
}

impl fmt::Display for Difference {
    fn fmt<W: fmt::Write>(&self, f: &mut fmt::Formatter<W>) -> fmt::Result {
        match *self {
            Difference::Malformed => write!(f, "malformed"),
            Difference::Rule { expected, found } => write!(f, "expected {expected}, found {found}"),
            Difference::List { lawful } => write!(f, "the list is lawful: {lawful}"),
            Difference::NoTable => write!(f, "the lines are no table"),
            Difference::Nodes => write!(f, "other nodes"),
        }
    }
}

// What is told of a rule: that it is accepted, with its counts where they are known, or the refusal.
#[derive(Clone, Copy)]
struct Told(Result<Option<Counts>, Refusal>);

impl fmt::Display for Told {
    fn fmt<W: fmt::Write>(&self, f: &mut fmt::Formatter<W>) -> fmt::Result {
        match self.0 {
            Ok(None) => write!(f, "0"),
            Ok(Some(counts)) => write!(f, "0 with {counts}"),
            Err(refusal) => {
                let number = refusal.number();
                match refusal.offset() {
                    Some(offset) => write!(f, "{number} at {offset}"),
                    None => write!(f, "{number}"),
                }
            }
        }
    }
}

impl fmt::Display for Counts {
    fn fmt<W: fmt::Write>(&self, f: &mut fmt::Formatter<W>) -> fmt::Result {
        let Counts {
            lines,
            choices,
            negation_lines,
            negation_choices,
        } = *self;
        write!(f, "{lines} {choices} {negation_lines} {negation_choices}")
    }
}

// The counts so far.
#[derive(Drop)]
pub struct Tally {
    // the row at hand, by its line's number
    row: u64,
    // a count for each kind; a map would ask for memory, and counting is not to fail
    agreements: [(Kind, u64); 11],
    disagreements: u64,
}

impl Tally {
    // Nothing is counted yet.
    pub fn new() -> Tally {
        Tally {
            row: 0,
            agreements: KINDS.map(|kind| (kind, 0)),
            disagreements: 0,
        }
    }

    // Takes the next line; one that is no row counts as a disagreement.
    pub fn take(&mut self, rt: &(impl Print + AllocGlobal), line: &[u8]) -> io::Result<()> {
        self.row = self.row.saturating_add(1);
        match Row::read(rt.alloc(), line) {
            Ok(Row::Comment) => Ok(()),
            Ok(Row::Rule(case)) => self.rule(rt, &case),
            Ok(Row::List(case)) => self.list(rt, &case),
            Ok(Row::Ask(case)) => self.ask(rt, &case),
            Err(Fault::Malformed) => self.differ(rt, Difference::Malformed),
            Err(Fault::Memory) => Err(AllocError.into()),
        }
    }

    // Counts a rule, or tells where the library differs.
    fn rule(&mut self, rt: &(impl Print + AllocGlobal), case: &RuleCase) -> io::Result<()> {
        let answer = case.answer;
        let found = judge(case.list.as_slice(), case.text.as_slice());
        let found_nodes = nodes_of_rule(rt.alloc(), case.list.as_slice(), case.text.as_slice())?;
        if agrees(&answer, &found) && found_nodes == nodes(&answer) {
            self.agree(Kind::from(&answer));
            return Ok(());
        }
        let expected = Told(answer.map(|_| None));
        let found = Told(found.map(Some));
        self.differ(rt, Difference::Rule { expected, found })
    }

    // Counts a list, or tells where the library differs.
    fn list(&mut self, rt: &impl Print, case: &ListCase) -> io::Result<()> {
        let lawful = SignalList::check(case.list.as_slice()).is_ok();
        if lawful != case.lawful {
            return self.differ(rt, Difference::List { lawful });
        }
        self.agree(if lawful { Kind::Lawful } else { Kind::Unlawful });
        Ok(())
    }

    // Counts a table that is one, with its nodes where they are said, or tells that it is not.
    fn ask(&mut self, rt: &(impl Print + AllocGlobal), case: &AskCase) -> io::Result<()> {
        let Some(table) = Table::from_lines(case.lines.as_slice()) else {
            return self.differ(rt, Difference::NoTable);
        };
        let nodes = nodes_of_table(rt.alloc(), &table)?;
        if case.nodes.is_some() && case.nodes != nodes {
            return self.differ(rt, Difference::Nodes);
        }
        self.agree(Kind::Table);
        Ok(())
    }

    // One more case of a kind, in which the library agrees.
    fn agree(&mut self, kind: Kind) {
        if let Some((_, count)) = self.agreements.iter_mut().find(|(other, _)| *other == kind) {
            *count = count.saturating_add(1);
        }
    }

    // One more case in which it differs, which is told.
    fn differ(&mut self, rt: &impl Print, difference: Difference) -> io::Result<()> {
        self.disagreements = self.disagreements.saturating_add(1);
        let row = self.row;
        println!(rt; "row {row}: {difference}")
    }

    // Tells the counts, at the end of the input.
    pub fn close(&self, rt: &impl Print) -> io::Result<()> {
        rt.println(self)
    }
}

impl fmt::Display for Tally {
    fn fmt<W: fmt::Write>(&self, f: &mut fmt::Formatter<W>) -> fmt::Result {
        for (kind, count) in self.agreements {
            writeln!(f, "{kind}: {count}")?;
        }
        let disagreements = self.disagreements;
        write!(f, "disagreements: {disagreements}")
    }
}
