// What a record claims.
use graph::node::Ranked;

// A run by the masks of its lead-in and its cycle, or a graph by its nodes with their ranks, in their order.
#[derive(Clone, Copy)]
pub enum Claim<'a> {
    Run { lead: &'a [u16], cycle: &'a [u16] },
    Graph(&'a [Ranked]),
}
