// The clerk's desk: what it knows from the lines so far, and how it answers the next.
use crate::bytes::Shown;
use crate::clerk::Clerk;
use crate::command::{Command, Line, Verb};
use crate::texts::Texts;
use crate::words::Numbered;
use rules::signals::SignalList;
use std::io;

// What the clerk has told so far.
#[derive(Drop)]
pub struct Desk {
    // the list that was given last, lawful or not
    list: Option<Vec<u8>>,
    // lines that came in, commands that were carried out, lines that were not understood
    lines: u64,
    done: u64,
    puzzling: u64,
}

impl Desk {
    // A desk before the first line.
    pub fn new() -> Desk {
        Desk {
            list: None,
            lines: 0,
            done: 0,
            puzzling: 0,
        }
    }

    // Takes the next line, and says what comes of it.
    pub fn take(&mut self, rt: &HostRuntime, line: &[u8]) -> io::Result<()> {
        self.lines = self.lines.saturating_add(1);
        match Line::from(line) {
            Line::Blank => Ok(()),
            Line::Order(command) => {
                self.done = self.done.saturating_add(1);
                self.carry_out(rt, command)
            }
            Line::Short(verb) => {
                let number = self.puzzled();
                let wanted = verb.wanted();
                println!(rt; "Line {number}: {wanted}")
            }
            Line::Unknown(word) => {
                let number = self.puzzled();
                let name = Shown(word);
                println!(rt; "Line {number}: there is no command '{name}'.")
            }
        }
    }

    // Says how much was done, at the end of the input.
    pub fn close(&self, rt: &HostRuntime) -> io::Result<()> {
        let done = self.done;
        let puzzling = self.puzzling;
        println!(rt; "Commands carried out: {done}. Lines not understood: {puzzling}.")
    }

    // Counts a line that is not understood, and gives its number.
    fn puzzled(&mut self) -> u64 {
        self.puzzling = self.puzzling.saturating_add(1);
        self.lines
    }

    // Does what a command asks for.
    fn carry_out(&mut self, rt: &HostRuntime, command: Command) -> io::Result<()> {
        let subject = command.subject;
        match command.verb {
            Verb::Signals => self.signals(rt, subject),
            Verb::Rule => self.clerk(rt)?.rule(subject),
            Verb::Table => self.clerk(rt)?.table(subject),
            Verb::Question => match Texts::parted(subject) {
                Some(texts) => self.clerk(rt)?.question(texts),
                None => {
                    println!(rt; "A question has a slash between what is kept and what is broken.")
                }
            },
            Verb::Graph => self.clerk(rt)?.graph(subject),
        }
    }

    // Takes a list of names, also an unlawful one, which counts as no names.
    fn signals(&mut self, rt: &HostRuntime, list: &[u8]) -> io::Result<()> {
        self.list = Some(list.to_vec(rt.alloc())?);
        match SignalList::check(list) {
            Ok(()) => {
                let names = Numbered(list);
                println!(rt; "The signals are: {names}.")
            }
            Err(refusal) => {
                println!(rt; "The list is refused: {refusal}. It counts as no names.")
            }
        }
    }

    // A clerk over the list at hand; says so where none was given yet.
    fn clerk<'a>(&'a self, rt: &'a HostRuntime) -> io::Result<Clerk<'a>> {
        match &self.list {
            Some(list) => Ok(Clerk {
                rt,
                list: list.as_slice(),
            }),
            None => {
                println!(rt; "No signals were given yet, so there are no names.")?;
                Ok(Clerk { rt, list: &[] })
            }
        }
    }
}
