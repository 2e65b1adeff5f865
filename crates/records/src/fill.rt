// Filling a space from a record: the claim that it holds is lent from the space.
ghost use Rattle.std.specs.Prelude.{◌≡◌};
ghost use Rattle.records.specs.Parsing.{record_of};
ghost use Rattle.records.specs.Spaces.{understood};

use crate::claim::Claim;
use crate::kind::Kind;
use crate::limits::Limits;
use crate::reader::Reader;
use crate::space::Space;

impl Space {
    // Reads a whole record into the space.
    pub(crate) fn fill(&mut self, bytes: &[u8], limits: Limits) -> Option<Claim<'_>>
        ensures { record_of limits bytes.now ≡ understood result }
    {
        let mut reader = Reader::new(bytes);
        match Kind::try_from(reader.byte()?).ok()? {
            Kind::Cycle => {
                let cycle = reader.list(limits, &mut self.cycle)?;
                reader.end()?;
                Some(Claim::Run { lead: &[], cycle })
            }
            Kind::LeadAndCycle => {
                let lead = reader.list(limits, &mut self.lead)?;
                let cycle = reader.list(limits, &mut self.cycle)?;
                reader.end()?;
                Some(Claim::Run { lead, cycle })
            }
            Kind::Graph => {
                let nodes = reader.list(limits, &mut self.nodes)?;
                reader.end()?;
                Some(Claim::Graph(nodes))
            }
        }
    }
}
