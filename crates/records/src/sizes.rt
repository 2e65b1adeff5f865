// How much a record can have.

// So many positions a lead-in, a cycle, and both together.
pub const LEAD: usize = 1_023;

pub const CYCLE: usize = 1_024;

pub const POSITIONS: usize = 2_047;

// So many nodes a graph.
pub const NODES: usize = 1_024;

// And so many bytes at most: a map, a count, and 1,024 nodes of 23 bytes.
pub const RECORD_ROOM: usize = 23_555;
