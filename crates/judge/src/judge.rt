// The judge of a record on a table.
ghost use Rattle.std.specs.Prelude.{◌≡◌, ◌+◌, ◌<◌, ◌≤◌, ◌↔◌, length, IsTrue};
ghost use Rattle.records.specs.Claims.{Claim as Claimed, claim_of, Counts};
ghost use Rattle.walk.specs.Outlines.{outlined};
ghost use Rattle.judge.specs.Judging.{limits_of, Right, Judged, Alone, Proves};

use crate::refutation::refutes;
use crate::verdict::Verdict;
use crate::workspace::Workspace;
use graph::sets::has;
use records::claim::Claim;
use records::limits::Limits;
use rules::refusal::Refusal;
use truth::rows::fill;
use walk::outline::Outline;

// What the bits of a record may stand for.
pub fn limits_of(outline: &Outline, signals: u8) -> Limits
    ensures { result ≡ limits_of (outlined outline.now) signals }
{
    Limits {
        signals,
        lines: outline.lines().len() as u8,
        eventualities: outline.eventualities(),
    }
}

// Does the run make the last line true at its first position? A lead-in and a cycle come as two slices, since the public calls of
// `truth` and `records` have them so.
fn keeps(outline: &Outline, lead: &[u16], cycle: &[u16], rows: &mut [u128]) -> bool
    requires some { 0 < length cycle.now }
    requires room { length lead.now + length cycle.now ≤ length rows.old }
    ensures { IsTrue result ↔ Right (outlined outline.now) (Claimed.run lead.now cycle.now) }
{
    let last = outline.lines().len() - 1;
    fill(outline, lead, cycle, rows) && has(rows[0], last as u8)
}

// Is the claim right on the table?
fn is_right(outline: &Outline, claim: Claim<'_>, rows: &mut [u128]) -> bool
    requires counts { Counts (claim_of claim) }
    requires room { 2047 ≤ length rows.old }
    ensures { IsTrue result ↔ Right (outlined outline.now) (claim_of claim.entry) }
{
    match claim {
        Claim::Run { lead, cycle } => keeps(outline, lead, cycle, rows),
        Claim::Graph(nodes) => refutes(outline, nodes),
    }
}

// Judges bytes as a record on a table, over so many signals: what its claim says, where the layout is lawful and the claim right.
pub fn judge(
    outline: &Outline,
    signals: u8,
    bytes: &[u8],
    work: &mut Workspace,
) -> Result<Verdict, Refusal>
    ensures answer { Judged (outlined outline.now) signals bytes.now result }
    ensures alone { Alone (outlined outline.now) signals bytes.now result }
    ensures proves { Proves (outlined outline.now) bytes.now result }
{
    let claim = Claim::read(bytes, limits_of(outline, signals), &mut work.space)?;
    if is_right(outline, claim, &mut work.rows) {
        Ok(claim.into())
    } else {
        Err(Refusal::Claim)
    }
}
