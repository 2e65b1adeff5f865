// The graph of a normal table, and the theorems of the method.
//
// `node` has the nodes, `sets` the sets of numbers that they are made of. How the lines of a node unfold under a choice
// is said in `specs/Unfolding.antt`, what the graph, an ω-loop and a ranked graph are in `specs/Graphs.antt`, and what
// is proved of them in `specs/Claims.antt`; `theorems` has it on the contracts of functions.
#![tactic(auto)]

pub mod node;
pub mod sets;
pub mod theorems;
