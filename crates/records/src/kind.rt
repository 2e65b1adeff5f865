// Which parts a record has, and the map that says so.
ghost use Rattle.std.specs.Prelude.{◌≡◌};
ghost use Rattle.records.specs.Kinds.{IsKindOf, kind_map};

use rules::refusal::Refusal;

// A run with a cycle alone, or with a lead-in and a cycle; or a graph.
#[derive(Clone, Copy, PartialEq)]
pub(crate) enum Kind {
    Cycle,
    LeadAndCycle,
    Graph,
}

impl TryFrom<u8> for Kind {
    type Error = Refusal;

    ghost try_from_gives = { IsKindOf };

    fn try_from(map: u8) -> Result<Kind, Refusal> {
        match map {
            2 => Ok(Kind::Cycle),
            3 => Ok(Kind::LeadAndCycle),
            4 => Ok(Kind::Graph),
            _ => Err(Refusal::Record),
        }
    }
}

impl From<Kind> for u8 {
    ghost from_gives = { λ kind map. map ≡ kind_map kind };

    fn from(kind: Kind) -> u8 {
        match kind {
            Kind::Cycle => 2,
            Kind::LeadAndCycle => 3,
            Kind::Graph => 4,
        }
    }
}
