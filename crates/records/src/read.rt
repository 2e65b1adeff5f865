// Reading a claim from its record.
ghost use Rattle.records.specs.Reading.{ReadAs, Alone};

use crate::claim::Claim;
use crate::limits::Limits;
use crate::space::Space;
use rules::refusal::Refusal;

impl<'a> Claim<'a> {
    // The one claim whose record this is, where there is one; it is lent from the space.
    pub fn read(bytes: &[u8], limits: Limits, space: &'a mut Space) -> Result<Claim<'a>, Refusal>
        ensures answer { ReadAs limits bytes.now result }
        ensures alone { Alone limits bytes.now result }
    {
        space.fill(bytes, limits).ok_or(Refusal::Record)
    }
}
