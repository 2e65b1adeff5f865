// The start of a walk.
ghost use Rattle.std.specs.Prelude.{◌≡◌};
ghost use Rattle.graph.specs.Pass.{opened};
ghost use Rattle.graph.specs.Sets.{set_of};
ghost use Rattle.walk.specs.Exact.{Exact};
ghost use Rattle.walk.specs.Outlines.{outlined};
ghost use Rattle.walk.specs.Remain.{remaining};
ghost use Rattle.walk.specs.Walk.{is_marked, walked};

use crate::branches::Branches;
use crate::found::{Found, Pass};
use crate::outline::Outline;
use arrayvec::ArrayVec;
use graph::node::Node;
use graph::sets::{common, has, union, with};

impl Outline {
    // The lines of the marked eventualities, which are numbered as they are met; without marks no line is looked at.
    fn marked(&self, marks: u16) -> u128
        ensures { result ≡ set_of self.now.len (is_marked (outlined self.now) marks) }
    {
        let mut lines = 0;
        if marks != 0 {
            let mut number = 0;
            for k in 0..self.len {
                if self.at(k).line().is_eventuality() {
                    if has(marks, number) {
                        lines = with(lines, k);
                    }
                    number += 1;
                }
            }
        }
        lines
    }

    // The lines that a node's label and marks stand for; bits past the table's lines count for nothing.
    pub(crate) fn open(&self, node: Node) -> u128
        ensures { result ≡ (opened (outlined self.now) node).now }
    {
        union(
            common(node.label, (1 << self.len) - 1),
            self.marked(node.marks),
        )
    }
}

impl<'a> Branches<'a> {
    // All branches of a node: under every choice that is one, and no others.
    pub fn new(outline: &'a Outline, node: Node) -> Branches<'a>
        ensures list { remaining result ≡ walked (outlined outline.now) node }
        ensures exact { Exact (outlined outline.now) node (remaining result) }
    {
        let mut branches = Branches {
            outline,
            node,
            stack: ArrayVec::new(),
        };
        branches.stack.push(Pass {
            line: outline.len,
            found: Found {
                seen: outline.open(node),
                ..Found::default()
            },
        });
        branches
    }
}
