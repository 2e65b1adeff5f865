// Which bits a record may have.
ghost use Rattle.std.specs.Prelude.{◌≡◌, ◌^◌, nat_lt};
ghost use Rattle.records.specs.Parsing.{fitting};

use crate::limits::Limits;
use graph::node::Node;

// The widest masks, labels, have so many bits.
const WIDTH: u8 = 128;

// Does no bit from this number on stand?
pub(crate) fn fits(value: u128, bits: u8) -> bool
    ensures { result ≡ nat_lt value (2 ^ bits) }
{
    bits >= WIDTH || value < 1 << bits
}

impl Limits {
    // Does every bit of the node stand for a line or an eventuality?
    pub(crate) fn allow(self, node: Node) -> bool
        ensures { result ≡ fitting self node }
    {
        fits(node.label, self.lines)
            && fits(node.marks.into(), self.eventualities)
            && fits(node.history.into(), self.eventualities)
    }
}
