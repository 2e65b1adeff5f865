// The walk over a node's branches.
ghost use Rattle.std.specs.Prelude.{ℕ, ◌+◌, ◌<◌, ◌≤◌};
ghost use Rattle.arrayvec.specs.ArrayVec.{array_vec_len};
ghost use Rattle.walk.specs.Outlines.{outlined};
ghost use Rattle.walk.specs.Stack.{Room};

use crate::found::Pass;
use crate::outline::Outline;
use arrayvec::ArrayVec;
use graph::node::Node;
use tables::table::TABLE_CHOICES;

// The branches of a node that are still to come, as a stack of unfinished passes.
#[derive(Drop)]
pub struct Branches<'a> {
    pub(crate) outline: &'a Outline,
    pub(crate) node: Node,
    pub(crate) stack: ArrayVec<Pass, TABLE_CHOICES>,
    ghost room: { Room (outlined outline.now) outline.now.len stack.items (array_vec_len stack) },
}
