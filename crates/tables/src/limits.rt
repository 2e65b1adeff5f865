// Rules within the limits on lines and choice lines.
ghost use Rattle.std.specs.Prelude.{◌≤◌, length};
ghost use Rattle.rules.specs.Rules.{formula_of};
ghost use Rattle.tables.specs.Limits.{kept, broken};
ghost use Rattle.tables.specs.Lines.{choices};

use rules::arena::Rule;

// So many lines, and so many choice lines, may each of a rule's two normal forms have.
pub const RULE_LINES: usize = 60;

pub const RULE_CHOICES: usize = 8;

// A rule whose normal form has at most 60 lines, and no more than 8 choice lines, and that of its negation neither.
#[derive(Drop)]
pub struct NormalRule {
    pub(crate) rule: Rule,
    ghost short: { length (kept (formula_of rule)) ≤ 60 },
    ghost few: { choices (kept (formula_of rule)) ≤ 8 },
    ghost dually: { choices (broken (formula_of rule)) ≤ 8 },
}
