// Room for what is read of a record.
ghost use Rattle.std.specs.Prelude.{◌≡◌, replicate};

use crate::sizes::{CYCLE, LEAD, NODES};
use graph::node::{Node, Ranked};

// The positions of a lead-in and of a cycle, and the nodes of a graph: as many as a record can have, since reading allocates
// nothing.
#[derive(Drop)]
pub struct Space {
    pub(crate) lead: [u16; LEAD],
    pub(crate) cycle: [u16; CYCLE],
    pub(crate) nodes: [Ranked; NODES],
}

// What stands where no node has been read.
const BLANK: Ranked = Ranked {
    node: Node {
        label: 0,
        marks: 0,
        history: 0,
    },
    rank: 0,
};

impl Space {
    // Room for any record, with nothing in it.
    pub fn new() -> Space
        ensures lead { result.lead ≡ replicate 1023 0 }
        ensures cycle { result.cycle ≡ replicate 1024 0 }
        ensures nodes { result.nodes ≡ replicate 1024 (record { node = record { label = 0; marks = 0; history = 0 }; rank = 0 }) }
    {
        Space {
            lead: [0; LEAD],
            cycle: [0; CYCLE],
            nodes: [BLANK; NODES],
        }
    }
}
