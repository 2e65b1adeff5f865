// Writing the record of a claim.
ghost use Rattle.std.specs.Prelude.{◌↔◌, IsTrue};
ghost use Rattle.records.specs.Appending.{Room, Wrote};
ghost use Rattle.records.specs.Claims.{claim_of, Counts, laid};
ghost use Rattle.records.specs.Writing.{Written};

use crate::claim::Claim;
use crate::sizes::{CYCLE, LEAD, NODES, RECORD_ROOM};
use crate::writer::Writer;
use rules::refusal::Refusal;

impl Claim<'_> {
    // Writes the record to the start of the buffer, and says how long it is. A buffer that has no room for the longest
    // record is refused, and so is a claim with counts that no record can have.
    pub fn write(self, buffer: &mut [u8]) -> Result<usize, Refusal>
        ensures { Written (claim_of self.entry) buffer.old result buffer.new }
    {
        if buffer.len() < RECORD_ROOM {
            return Err(Refusal::Place);
        }
        if !self.is_countable() {
            return Err(Refusal::Record);
        }
        let mut writer = Writer { buffer, at: 0 };
        self.put(&mut writer);
        Ok(writer.at)
    }

    // Can a record have so many positions or nodes?
    fn is_countable(self) -> bool
        ensures { IsTrue result ↔ Counts (claim_of self.entry) }
    {
        match self {
            Claim::Run { lead, cycle } => lead.len() <= LEAD && (1..=CYCLE).contains(&cycle.len()),
            Claim::Graph(nodes) => (1..=NODES).contains(&nodes.len()),
        }
    }

    // The record of the claim.
    fn put(self, writer: &mut Writer)
        requires counts { Counts (claim_of self) }
        requires room { Room writer.old 23555 }
        ensures { Wrote writer.old writer.new (laid (claim_of self.entry)) }
    {
        match self {
            Claim::Run { lead, cycle } => writer.run(lead, cycle),
            Claim::Graph(nodes) => writer.graph(nodes),
        }
    }
}
