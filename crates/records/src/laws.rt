// What holds of the layout of every claim.
ghost use Rattle.records.specs.Laws.{OneLayout};

// A claim within the limits has one lawful record, no other claim has it, and no record is longer than the longest.
pub fn one_layout()
    ensures { OneLayout }
{}
