// A plain survey of a graph: its nodes in the order in which a loop meets them, for programs that show or count them.
#![tactic(auto)]

use graph::node::Node;
use std::alloc::{AllocError, Global};
use tables::numbering::number_of;
use walk::branches::Branches;
use walk::outline::Outline;

// The nodes that the initial node reaches, itself first; the survey ends once there are more than `limit`.
pub fn survey(heap: Global, outline: &Outline, limit: usize) -> Result<Vec<Node>, AllocError> {
    let mut nodes = Vec::new(heap);
    nodes.push(outline.initial())?;
    // The list grows on the way, so its places are counted.
    for k in 0..limit {
        let Some(node) = nodes.get(k).copied() else {
            break;
        };
        visit(outline, node, limit, &mut nodes)?;
    }
    Ok(nodes)
}

// Adds the successors of a node that were not met yet.
fn visit(
    outline: &Outline,
    node: Node,
    limit: usize,
    nodes: &mut Vec<Node>,
) -> Result<(), AllocError> {
    for branch in Branches::new(outline, node) {
        if nodes.len() > limit {
            break;
        }
        if number_of(nodes.as_slice(), &branch.successor).is_none() {
            nodes.push(branch.successor)?;
        }
    }
    Ok(())
}

// Does a branch lead from one node to the other?
pub fn leads(outline: &Outline, from: Node, to: Node) -> bool {
    Branches::new(outline, from).any(|branch| branch.successor == to)
}
