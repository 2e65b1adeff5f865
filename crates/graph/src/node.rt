// The nodes of the graph of a normal table.

// A node: its label's lines, the label's marked eventualities, and its history, each a set as a mask.
#[derive(Drop, Clone, Copy, PartialEq)]
pub struct Node {
    pub label: u128,
    pub marks: u16,
    pub history: u16,
}

// A node as a graph lists it, with its rank. Two are the same where their nodes are, whatever the ranks.
#[derive(Drop, Clone, Copy)]
#[derive_where(PartialEq)]
pub struct Ranked {
    pub node: Node,
    #[derive_where(skip)]
    pub rank: u16,
}
