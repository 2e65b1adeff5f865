// What the clerk says of rules and of questions over a list of names.
use crate::formula::Formula;
use crate::refused::Pointed;
use crate::table::Lines;
use crate::texts::Texts;
use rules::arena::Rule;
use rules::refusal::Refusal;
use rules::signals::SignalList;
use std::io;
use tables::limits::NormalRule;
use tables::question::Question;

// A formula of more symbols is told by its size alone.
const SHOWN: usize = 200;

// A clerk at work over a list of names, lawful or not.
#[derive(Clone, Copy)]
pub struct Clerk<'a> {
    pub rt: &'a HostRuntime,
    pub list: &'a [u8],
}

impl<'a> Clerk<'a> {
    // The names of the list; an unlawful one counts as no names.
    pub(crate) fn names(self) -> SignalList<'a> {
        SignalList::lenient(self.list)
    }

    // Says which formula a text spells, or why none.
    pub(crate) fn rule(self, text: &[u8]) -> io::Result<()> {
        match Rule::read(self.names(), text) {
            Ok(rule) => self.tell_rule(&rule),
            Err(refusal) => self.tell_refused_rule(text, refusal),
        }
    }

    // Shows a rule and its size, or the size alone where the rule is large.
    fn tell_rule(self, rule: &Rule) -> io::Result<()> {
        let rt = self.rt;
        let size = rule.size();
        if size > SHOWN {
            return println!(rt;
                "The rule reads well. Its size is {size}, and above {SHOWN} it is not shown."
            );
        }
        let formula = Formula {
            rule,
            list: self.list,
        };
        println!(rt; "The rule reads: {formula}. Its size is {size}.")
    }

    // Says why a text is refused as a rule, and points into it.
    pub(crate) fn tell_refused_rule(self, text: &[u8], refusal: Refusal) -> io::Result<()> {
        let rt = self.rt;
        let pointed = Pointed { refusal, text };
        println!(rt; "The rule is refused: {refusal}.{pointed}")
    }

    // Shows the normal table of keeping a rule, or says why there is none.
    pub(crate) fn table(self, text: &[u8]) -> io::Result<()> {
        self.question(Texts {
            kept: text,
            broken: &[],
        })
    }

    // Shows the normal table of a question, or says why there is none.
    pub(crate) fn question(self, texts: Texts) -> io::Result<()> {
        let rt = self.rt;
        match Question::read(self.names(), texts.kept, texts.broken) {
            Ok(question) => {
                let table = &question.table;
                let lines = table.lines().len();
                let choices = table.choices();
                let shown = Lines {
                    table,
                    list: self.list,
                };
                println!(rt; "Lines: {lines}. Choice lines: {choices}.{shown}")
            }
            Err(refusal) => self.tell_refused_question(texts, refusal),
        }
    }

    // Says why the texts of a question are refused, and points into the one that is.
    pub(crate) fn tell_refused_question(self, texts: Texts, refusal: Refusal) -> io::Result<()> {
        let rt = self.rt;
        let text = if self.refuses(texts.kept) {
            texts.kept
        } else {
            texts.broken
        };
        let pointed = Pointed { refusal, text };
        println!(rt; "The question is refused: {refusal}.{pointed}")
    }

    // Is a text that is given refused as a rule?
    fn refuses(self, text: &[u8]) -> bool {
        !text.is_empty() && NormalRule::read(self.names(), text).is_err()
    }
}
