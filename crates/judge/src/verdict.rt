// What is found of a question.
use records::claim::Claim;

// A run meets it, or none does.
#[derive(Clone, Copy, PartialEq)]
pub enum Verdict {
    Run,
    None,
}

// What a claim says.
impl From<Claim<'_>> for Verdict {
    ghost use Rattle.std.specs.Prelude.{◌≡◌};
    ghost use Rattle.records.specs.Claims.{claim_of};
    ghost use Rattle.judge.specs.Judging.{said};

    ghost from_gives = { λ claim verdict. verdict ≡ said (claim_of claim) };

    fn from(claim: Claim<'_>) -> Verdict {
        match claim {
            Claim::Run { .. } => Verdict::Run,
            Claim::Graph(_) => Verdict::None,
        }
    }
}
