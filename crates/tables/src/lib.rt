// Normal tables: a rule or a question as numbered lines.
//
// `numbering` gives keys of any kind their numbers; `table` is the table with the law that every table keeps.
// `limits` has the rules whose normal forms are small enough, and `question` the tables of questions, keep X and
// break Y. What the lines stand for, over runs, is said in `specs/Questions.antt`.
#![tactic(auto)]

mod draft;
pub mod laws;
pub mod limits;
pub mod line;
mod memo;
mod normal;
pub mod numbering;
pub mod question;
mod read;
pub mod table;
mod view;
