// A graph of at most 16 nodes, in the order in which a plain loop meets them.
use graph::node::Node;
use graph::sets::with;
use tables::line::Line;
use tables::numbering::{number, number_of};
use tables::table::Table;
use walk::branches::Branches;
use walk::outline::Outline;

// The numbering is over a slice, of which the first `count` nodes have numbers, so it is an array and a count.
#[derive(Drop)]
pub struct Explored {
    pub outline: Outline,
    pub nodes: [Node; 16],
    pub count: usize,
}

// `None` where the lines make no table, or there are more nodes.
pub fn explore(lines: &[Line]) -> Option<Explored> {
    let outline = Outline::of(&Table::from_lines(lines)?)?;
    let mut nodes = [outline.initial(); 16];
    let mut count = 1;
    // The list grows on the way, so its places are counted.
    for k in 0..nodes.len() {
        if k == count {
            break;
        }
        let node = nodes[k];
        count = expand(&outline, &mut nodes, count, node)?;
    }
    Some(Explored {
        outline,
        nodes,
        count,
    })
}

// Numbers the nodes that the branches of a node lead to, and tells how many have numbers then.
fn expand(outline: &Outline, nodes: &mut [Node], used: usize, node: Node) -> Option<usize> {
    let mut count = used;
    for branch in Branches::new(outline, node) {
        let met = number(nodes, count, branch.successor)?;
        count = count.max(met + 1);
    }
    Some(count)
}

// The numbers of the nodes that a node's branches lead to, as a set.
pub fn successors(explored: &Explored, k: usize) -> u16 {
    let Some(node) = explored.nodes.get(k) else {
        return 0;
    };
    Branches::new(&explored.outline, *node)
        .filter_map(|branch| number_of(&explored.nodes, &branch.successor))
        .fold(0, |all, met| with(all, met as u8))
}
