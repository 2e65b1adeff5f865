// The graph of a normal table: its nodes and where they lead, in words or for Graphviz.
use graph::node::{Node, Ranked};
use graph::sets::has;
use std::fmt;
use survey::leads;
use walk::outline::Outline;

// So many nodes are shown.
pub const SHOWN_NODES: usize = 100;

// The numbers in a set of lines or of eventualities.
#[derive(Clone, Copy)]
struct Members(u128);

impl fmt::Display for Members {
    fn fmt<W: fmt::Write>(&self, f: &mut fmt::Formatter<W>) -> fmt::Result {
        let set = self.0;
        if set == 0 {
            return f.write_str("none");
        }
        for (place, k) in (0..128u8).filter(|k| has(set, *k)).enumerate() {
            if place > 0 {
                f.write_str(" ")?;
            }
            write!(f, "{k}")?;
        }
        Ok(())
    }
}

// A node by its sets.
#[derive(Clone, Copy)]
struct Described(Node);

impl fmt::Display for Described {
    fn fmt<W: fmt::Write>(&self, f: &mut fmt::Formatter<W>) -> fmt::Result {
        let label = Members(self.0.label);
        let marks = Members(self.0.marks.into());
        let history = Members(self.0.history.into());
        write!(f, "label {label}; marks {marks}; history {history}")
    }
}

// The nodes of a graph, over the outline of its table.
#[derive(Clone, Copy)]
pub struct Graph<'a> {
    pub outline: &'a Outline,
    pub nodes: &'a [Node],
}

impl Graph<'_> {
    // Has a branch of the one node the other as its successor?
    fn leads(self, from: Node, to: Node) -> bool {
        leads(self.outline, from, to)
    }

    // Writes the numbers of the nodes that a node leads to. Each is asked for once, since that walks the node's branches.
    fn successors<W: fmt::Write>(self, node: Node, f: &mut fmt::Formatter<W>) -> fmt::Result {
        let mut some = false;
        for (number, to) in self.nodes.iter().enumerate() {
            if self.leads(node, *to) {
                some = true;
                write!(f, " {number}")?;
            }
        }
        if some { Ok(()) } else { f.write_str(" none") }
    }

    // Writes an arrow from a node of this number to each node that it leads to. The loop is that above, and what is written is
    // not: a closure over both would be longer.
    fn arrows<W: fmt::Write>(
        self,
        from: usize,
        node: Node,
        f: &mut fmt::Formatter<W>,
    ) -> fmt::Result {
        for (number, to) in self.nodes.iter().enumerate() {
            if self.leads(node, *to) {
                write!(f, "\n  {from} -> {number};")?;
            }
        }
        Ok(())
    }
}

// A graph in words.
#[derive(Clone, Copy)]
pub struct Told<'a>(pub Graph<'a>);

impl fmt::Display for Told<'_> {
    fn fmt<W: fmt::Write>(&self, f: &mut fmt::Formatter<W>) -> fmt::Result {
        let graph = self.0;
        for (number, node) in self.0.nodes.iter().enumerate() {
            let described = Described(*node);
            write!(f, "\n  {number:>3}  {described}")?;
            if graph.outline.is_omega(*node) {
                f.write_str("; an omega-node")?;
            }
            f.write_str("; leads to")?;
            graph.successors(*node, f)?;
        }
        Ok(())
    }
}

// A graph in Graphviz' language.
#[derive(Clone, Copy)]
pub struct Drawn<'a>(pub Graph<'a>);

impl fmt::Display for Drawn<'_> {
    fn fmt<W: fmt::Write>(&self, f: &mut fmt::Formatter<W>) -> fmt::Result {
        let graph = self.0;
        f.write_str("digraph rule {")?;
        for (from, node) in self.0.nodes.iter().enumerate() {
            let label = Members(node.label);
            let marks = Members(node.marks.into());
            let history = Members(node.history.into());
            let shape = if graph.outline.is_omega(*node) {
                "doublecircle"
            } else {
                "circle"
            };
            write!(
                f,
                "\n  {from} [shape={shape}, label=\"{label}\\nmarks {marks}\\nhistory {history}\"];"
            )?;
            graph.arrows(from, *node, f)?;
        }
        f.write_str("\n}")
    }
}

// The nodes that a record lists, with their ranks.
#[derive(Clone, Copy)]
pub struct Listed<'a>(pub &'a [Ranked]);

impl fmt::Display for Listed<'_> {
    fn fmt<W: fmt::Write>(&self, f: &mut fmt::Formatter<W>) -> fmt::Result {
        for (number, listed) in self.0.iter().enumerate() {
            let described = Described(listed.node);
            let rank = listed.rank;
            write!(f, "\n  {number:>3}  {described}; rank {rank}")?;
        }
        Ok(())
    }
}
