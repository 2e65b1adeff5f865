// The tables that the judge works in.
ghost use Rattle.std.specs.Prelude.{◌≡◌, length};

use records::sizes::POSITIONS;
use records::space::Space;

// Room for what is read of a record, and the rows of a run's truth table, for the longest, since judging allocates nothing. The caller of the judge owns them; nothing in
// them matters before a record is judged, or after.
#[derive(Drop)]
pub struct Workspace {
    pub(crate) space: Space,
    pub(crate) rows: [u128; POSITIONS],
    ghost long: { length rows ≡ 2047 },
}

impl Workspace {
    // Room for any record.
    pub fn new() -> Workspace {
        let space = Space::new();
        Workspace {
            space,
            rows: [0; POSITIONS],
        }
    }
}
