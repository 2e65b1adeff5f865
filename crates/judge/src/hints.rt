// Guesses where a node stands in a list of nodes. A guess is tested before it is believed, so none can be wrong.
ghost use Rattle.std.specs.Prelude.{◌<◌};
ghost use Rattle.judge.specs.Refutations.{Guessed, Place};

use graph::node::{Node, Ranked};
use tables::numbering::number_of;

const SLOTS: usize = 4096;

// So many slots, one after another, are tried for a node.
const TRIES: usize = 8;

// The number of a node, or that it is free: two bytes, where an `Option<u16>` takes four and is slower to fill.
#[derive(Clone, Copy, PartialEq)]
struct Slot(u16);

impl Slot {
    // The largest number, which ends a guess as any number does that no node of the list has.
    const FREE: Slot = Slot(u16::MAX);
}

// The numbers of nodes, each in a slot that its node's bits choose, or in one of the next. A map would allocate, and the judge
// does not.
#[derive(Drop)]
pub struct Hints {
    slots: [Slot; SLOTS],
}

// The first slot to try for a node. It takes the label's halves by itself: those of `records` are private to its layout.
fn slot_of(node: Node) -> usize
    ensures { result < 4096 }
{
    let low = (node.label & u128::from(u64::MAX)) as u64;
    let high = (node.label >> 64) as u64;
    let rest = u64::from(node.marks) * 65536 + u64::from(node.history);
    let mixed = low.wrapping_mul(0x9e37_79b9_7f4a_7c15)
        ^ high.wrapping_mul(0xc2b2_ae3d_27d4_eb4f)
        ^ rest.wrapping_mul(0x1656_67b1_9e37_79f9);
    let spread = (mixed ^ (mixed >> 29)).wrapping_mul(0xbf58_476d_1ce4_e5b9);
    (spread >> 40) as usize % SLOTS
}

// The first place of the node in the list, if there is one.
pub(crate) fn place_of(nodes: &[Ranked], node: Node) -> Option<usize>
    ensures { Place nodes.now node result }
{
    number_of(nodes, &Ranked { node, rank: 0 })
}

impl Hints {
    // No guesses.
    pub fn new() -> Hints {
        Hints {
            slots: [Slot::FREE; SLOTS],
        }
    }

    // Notes that a node has this number; where all its slots are taken it is not noted.
    pub fn note(&mut self, node: Node, number: u16) {
        let first = slot_of(node);
        let free = (first..first + TRIES)
            .map(|slot| slot % SLOTS)
            .find(|slot| self.slots[*slot] == Slot::FREE);
        if let Some(slot) = free {
            self.slots[slot] = Slot(number);
        }
    }

    // A place of the node in the list, if a guess is right. A number that no node of the list has ends the guessing.
    pub fn guess(&self, nodes: &[Ranked], node: Node) -> Option<usize>
        ensures { Guessed nodes.now node result }
    {
        let first = slot_of(node);
        (first..first + TRIES)
            .map(|slot| usize::from(self.slots[slot % SLOTS].0))
            .take_while(|number| *number < nodes.len())
            .find(|number| nodes.get(*number).is_some_and(|listed| listed.node == node))
    }

    // A place of the node in the list, if there is one.
    pub fn find(&self, nodes: &[Ranked], node: Node) -> Option<usize>
        ensures { Place nodes.now node result }
    {
        self.guess(nodes, node).or_else(|| place_of(nodes, node))
    }
}
