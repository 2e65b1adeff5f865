// Judging a record on a table: what it proves, or why it is refused.
//
// `judge` reads a record's claim and judges it: a run by its truth table, a graph by `refutation`, with `hints` to find a
// node among those that are listed. `verdict` is what it answers, and `workspace` the tables that it works in.
#![tactic(auto)]

pub mod hints;
pub mod judge;
pub mod refutation;
pub mod verdict;
pub mod workspace;
