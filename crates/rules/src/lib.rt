// Rules of propositional temporal logic: from the bytes of a text to a formula with a meaning.
//
// `signals` checks a list of signal names and looks a name up; `reader` cuts a rule text into
// tokens; `rule` reads a whole text as one formula, or tells its first fault.
// What a formula means, over runs, stands in `specs/Runs.antt`.
#![tactic(auto)]

pub mod arena;
mod letters;
pub mod reader;
pub mod refusal;
pub mod rule;
pub mod signals;
pub mod syntax;
mod words;
