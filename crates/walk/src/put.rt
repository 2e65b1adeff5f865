// Putting lines into a label, the history, and the nodes that need no walk.
ghost use Rattle.std.specs.Prelude.{◌≡◌, ℕ, ◌<◌, Decides};
ghost use Rattle.graph.specs.Pass.{put, spread_below, is_omega, initial};
ghost use Rattle.graph.specs.Unfolding.{Initial, Omega};
ghost use Rattle.walk.specs.Outlines.{outlined};
ghost use Rattle.walk.specs.Walk.{history_of};

use crate::outline::Outline;
use graph::node::Node;
use graph::sets::{common, has, with, without};

impl Outline {
    // The lines, and the sides of their ∧ lines.
    fn spread_all(&self, lines: u128) -> u128
        ensures { result ≡ spread_below (outlined self.now) self.now.len lines }
    {
        let mut all = lines;
        for k in (0..self.len).rev() {
            if has(all, k) {
                all = self.at(k).spread(all);
            }
        }
        all
    }

    // The label of the lines that are put.
    pub(crate) fn put(&self, lines: u128) -> u128
        ensures { result ≡ put (outlined self.now) lines }
    {
        if common(lines, self.ands) == 0 {
            common(lines, self.stays)
        } else {
            common(self.spread_all(lines), self.stays)
        }
    }

    // What is not put off, and what the old history had unless the node is an ω-node.
    pub(crate) fn history(&self, node: Node, later: u16) -> u16
        ensures { result ≡ history_of (outlined self.now) node later }
    {
        let old = if self.is_omega(node) { 0 } else { node.history };
        without(self.all, without(later, old))
    }

    // Is its history V?
    pub fn is_omega(&self, node: Node) -> bool
        ensures is { result ≡ is_omega (outlined self.now) node }
        ensures means { Decides result (Omega (outlined self.now) node) }
    {
        node.history == self.all
    }

    // The initial node: the label of the root alone.
    pub fn initial(&self) -> Node
        ensures is { result ≡ initial (outlined self.now) }
        ensures means { Initial (outlined self.now) result }
    {
        let label = self.put(with(0, self.len - 1));
        Node {
            label,
            marks: 0,
            history: 0,
        }
    }
}
