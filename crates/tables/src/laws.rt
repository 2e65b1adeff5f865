// Statements about the definitions, each on the contract of a function.
ghost use Rattle.tables.specs.Laws.{Laws};
ghost use Rattle.tables.specs.Rows.{Rows};

// Normal forms have the truth of their formulas, and that of a negation is the exact dual. A form is numbered with
// no line twice, its own line last, and the number kept where it is met again. Texts have one answer as a question.
pub fn laws_stand()
    ensures { Laws }
{}

// Nine rules have the lines and choice lines that are stated of them.
pub fn rows_stand()
    ensures { Rows }
{}
