// The judge of a graph: whether listed nodes with their ranks show that there is no run.
ghost use Rattle.std.specs.Prelude.{◌≡◌, ℕ, ◌<◌, ◌≤◌, ◌↔◌, true, false, IsTrue, length, Decides};
ghost use Rattle.graph.specs.Graphs.{Once, Ranks};
ghost use Rattle.graph.specs.Unfolding.{Initial};
ghost use Rattle.walk.specs.Outlines.{outlined};
ghost use Rattle.judge.specs.Refutations.{ranked_list, Falls, Closed, Begins, New};

use crate::hints::{Hints, place_of};
use graph::node::{Node, Ranked};
use walk::branches::Branches;
use walk::outline::Outline;

// Is this rank not above the other, and below it where the fall is to be strict?
fn sinks(rank: u16, from: u16, strict: bool) -> bool
    ensures { IsTrue result ↔ ((rank ≤ from) × (strict ≡ true → rank < from)) }
{
    if strict { rank < from } else { rank <= from }
}

// A list of nodes with their ranks, and guesses where each stands.
#[derive(Drop)]
struct Listing<'a> {
    nodes: &'a [Ranked],
    hints: Hints,
}

impl Listing<'_> {
    // Does a node stand in the list with a rank not above this one, and below it where the fall is to be strict?
    fn falls(&self, rank: u16, strict: bool, to: Node) -> bool
        ensures yes { result ≡ true → Falls self.now.nodes.now rank strict to }
        ensures no { result ≡ false → Once (ranked_list self.now.nodes.now) → Falls self.now.nodes.now rank strict to → ⊥ }
    {
        self.hints
            .find(self.nodes, to)
            .is_some_and(|place| sinks(self.nodes[place].rank, rank, strict))
    }

    // Does every branch of a listed node lead to a listed node whose rank sinks?
    fn is_closed(&self, outline: &Outline, from: Ranked) -> bool
        ensures yes { result ≡ true → Closed (outlined outline.now) self.now.nodes.now from }
        ensures no { result ≡ false → Once (ranked_list self.now.nodes.now) → Closed (outlined outline.now) self.now.nodes.now from → ⊥ }
    {
        let strict = outline.is_omega(from.node);
        for branch in Branches::new(outline, from.node) {
            if !self.falls(from.rank, strict, branch.successor) {
                return false;
            }
        }
        true
    }
}

// Does the list begin with the initial node?
fn begins(outline: &Outline, nodes: &[Ranked]) -> bool
    ensures { IsTrue result ↔ Begins (outlined outline.now) nodes.now }
{
    match nodes {
        [first, ..] => first.node == outline.initial(),
        [] => false,
    }
}

// Is the node with this number not among the earlier ones?
fn is_new(nodes: &[Ranked], number: usize) -> bool
    requires { number < length nodes.now }
    ensures { IsTrue result ↔ New nodes.now number }
{
    place_of(&nodes[..number], nodes[number].node).is_none()
}

// The guesses for all listed nodes.
fn hints_of(nodes: &[Ranked]) -> Hints {
    let mut hints = Hints::new();
    for (listed, number) in nodes.iter().zip(0..1024u16) {
        hints.note(listed.node, number);
    }
    hints
}

// Is the list a ranked graph in which no node stands twice?
pub fn refutes(outline: &Outline, nodes: &[Ranked]) -> bool
    ensures { Decides result (Ranks (outlined outline.now) (ranked_list nodes.now) × Once (ranked_list nodes.now)) }
{
    if !begins(outline, nodes) {
        return false;
    }
    let listing = Listing {
        nodes,
        hints: hints_of(nodes),
    };
    for (number, listed) in nodes.iter().enumerate() {
        if !is_new(nodes, number) || !listing.is_closed(outline, *listed) {
            return false;
        }
    }
    true
}
