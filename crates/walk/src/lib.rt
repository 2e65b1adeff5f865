// The branches of a node, handed out one by one.
//
// An `Outline` is a table made ready for unfolding; it tells the initial node and the ω-nodes. `Branches` walks from the
// highest line down, branches only on choice lines that it reaches, and drops a contradiction at once.
// What the walk hands out is said in `specs/Exact.antt`.
#![tactic(auto)]

pub mod branches;
mod fit;
pub mod found;
mod make;
mod next;
mod open;
pub mod outline;
mod place;
mod put;
mod read;
mod step;
