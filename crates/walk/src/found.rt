// What a walk over the lines of a node finds.
use graph::node::Node;

// What a pass over the lines has found so far: the lines seen, those put next, the eventualities put off,
// and the signals needed on and off.
#[derive(Drop, Clone, Copy, Default)]
pub(crate) struct Found {
    pub(crate) seen: u128,
    pub(crate) next: u128,
    pub(crate) later: u16,
    pub(crate) on: u16,
    pub(crate) off: u16,
}

// Where a line leads. It has names for its three cases, which an `Option` of a pair with an `Option` would not have.
#[derive(Drop, Clone, Copy)]
pub(crate) enum Step {
    Dead,
    One(Found),
    Two(Found, Found),
}

// A pass that has the lines below `line` still before it.
#[derive(Drop, Clone, Copy, Default)]
pub(crate) struct Pass {
    pub(crate) line: u8,
    pub(crate) found: Found,
}

// A branch: the signals that it needs on and off, and the node that it leads to.
#[derive(Drop, Clone, Copy)]
pub struct Branch {
    pub on: u16,
    pub off: u16,
    pub successor: Node,
}
