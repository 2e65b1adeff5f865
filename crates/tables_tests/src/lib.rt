// Examples of normal tables: the limits, shared lines, and questions from texts.
#![tactic(auto)]

#[cfg(test)]
mod limits;
#[cfg(test)]
mod questions;
