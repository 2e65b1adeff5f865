// What a line of input asks for.
ghost use Rattle.routing.specs.Commands.{Named, Asks};

use crate::words::cut;

// The commands by their names.
#[derive(Clone, Copy)]
pub enum Verb {
    // take a list of signal names
    Signals,
    // read a rule
    Rule,
    // make the normal table of keeping a rule
    Table,
    // make the normal table of keeping one rule and breaking another, by both texts with a slash between
    Question,
    // explore the graph of keeping a rule; `dot` after its text asks for a drawing
    Graph,
}

// What the clerk asks for: a command, and the bytes that it is about.
#[derive(Clone, Copy)]
pub struct Command<'a> {
    pub verb: Verb,
    pub subject: &'a [u8],
}

// A line, by what is to be done about it.
#[derive(Clone, Copy)]
pub enum Line<'a> {
    // an empty line or a comment
    Blank,
    Order(Command<'a>),
    // a command without what it is about
    Short(Verb),
    // begins with this word, which is no command's name
    Unknown(&'a [u8]),
}

impl Verb {
    // The command of this name. A word that is none is no error, so an `Option` and no `TryFrom`.
    pub fn named(word: &[u8]) -> Option<Verb>
        ensures { Named word.now result }
    {
        match word {
            b"signals" => Some(Verb::Signals),
            b"rule" => Some(Verb::Rule),
            b"table" => Some(Verb::Table),
            b"question" => Some(Verb::Question),
            b"graph" => Some(Verb::Graph),
            _ => None,
        }
    }

    // What to write after the name of the command.
    pub(crate) fn wanted(self) -> &'static str {
        match self {
            Verb::Signals => "after 'signals' write a blank and the names.",
            Verb::Rule => "after 'rule' write a blank and the rule's text.",
            Verb::Table => "after 'table' write a blank and the rule's text.",
            Verb::Question =>
                "after 'question' write a blank, the text to keep, a slash, and the text to break.",
            Verb::Graph => "after 'graph' write a blank and the rule's text.",
        }
    }
}

// A command's name ends at the first blank, and all after that blank is what it is about.
impl<'a> From<&'a [u8]> for Line<'a> {
    ghost from_gives = { λ line r. Asks line.now r };

    fn from(line: &'a [u8]) -> Line<'a> {
        if line.is_empty() || line.starts_with(b"#") {
            return Line::Blank;
        }
        let (word, rest) = cut(line);
        let Some(verb) = Verb::named(word) else {
            return Line::Unknown(word);
        };
        match rest {
            Some(subject) => Line::Order(Command { verb, subject }),
            None => Line::Short(verb),
        }
    }
}
