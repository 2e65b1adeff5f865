// What the clerk says of graphs.
use crate::clerk::Clerk;
use crate::nodes::{Drawn, Graph, SHOWN_NODES, Told};
use std::io;
use survey::survey;
use tables::question::Question;
use walk::outline::Outline;

// How a graph is shown.
#[derive(Clone, Copy)]
enum Form {
    Words,
    Drawing,
}

impl Clerk<'_> {
    // Explores the graph of keeping a rule, or says why there is none; ` dot` after the text asks for a drawing.
    pub(crate) fn graph(self, text: &[u8]) -> io::Result<()> {
        match text.strip_suffix(b" dot") {
            Some(text) => self.explore(text, Form::Drawing),
            None => self.explore(text, Form::Words),
        }
    }

    // Reads the rule, and shows the graph of keeping it. A record is judged on an outline that is made so too, but its question is
    // refused in other words.
    fn explore(self, text: &[u8], form: Form) -> io::Result<()> {
        let rt = self.rt;
        match Question::read(self.names(), text, &[]) {
            Ok(question) => match Outline::of(&question.table) {
                Some(outline) => self.show(&outline, form),
                None => println!(rt; "A signal of the table has no bit in a position."),
            },
            Err(refusal) => self.tell_refused_rule(text, refusal),
        }
    }

    // Shows the nodes, if they are not too many.
    fn show(self, outline: &Outline, form: Form) -> io::Result<()> {
        let rt = self.rt;
        let found = survey(rt.alloc(), outline, SHOWN_NODES)?;
        let nodes = found.as_slice();
        let count = nodes.len();
        if count > SHOWN_NODES {
            return println!(rt; "The graph has more than {SHOWN_NODES} nodes, and is not shown.");
        }
        let graph = Graph { outline, nodes };
        match form {
            Form::Words => {
                let told = Told(graph);
                println!(rt; "Nodes: {count}.{told}")
            }
            Form::Drawing => {
                let drawing = Drawn(graph);
                println!(rt; "{drawing}")
            }
        }
    }
}
