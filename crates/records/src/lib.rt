// Records: the one layout of each claim.
//
// `claim` is what a record can claim: `Claim::read` and `Claim::write` go from bytes to claims and back. `limits` says
// which bits a record may have, `sizes` how much of each part, and `space` is the room that is read into. `laws` says
// that each claim has one record, and each record one claim.
#![tactic(auto)]

pub mod claim;
mod claim_writer;
mod coded;
mod fill;
mod item;
mod kind;
mod label;
pub mod laws;
pub mod limits;
mod list;
mod node;
mod read;
mod reader;
pub mod sizes;
pub mod space;
mod within;
mod write;
mod writer;
