// The truth table of a run: a row for each position, and in it the lines of a normal table that are true there.
#![tactic(auto)]

mod line;
pub mod rows;
mod run;
