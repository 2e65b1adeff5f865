// Rules within the limits and questions, made of formulas and of texts.
ghost use Rattle.std.specs.Prelude.{◌≡◌};
ghost use Rattle.rules.specs.Rules.{formula_of};
ghost use Rattle.tables.specs.Normal.{nnf};
ghost use Rattle.tables.specs.Numbering.{tabled};
ghost use Rattle.tables.specs.Questions.{keeps, breaks, both, form_of, Asks, Limited, RuleOf, QuestionOf, StrictlyOf};
ghost use Rattle.tables.specs.Tables.{lines_of};

use crate::limits::{NormalRule, RULE_LINES};
use crate::line::Line;
use crate::normal::number_rule;
use crate::question::Question;
use crate::table::{Draft, Table};
use rules::arena::Rule;
use rules::refusal::Refusal;
use rules::signals::SignalList;

impl NormalRule {
    // The rule, if it keeps the limits.
    pub fn new(rule: Rule) -> Result<NormalRule, Refusal>
        ensures { Limited (formula_of rule) result }
    {
        let (draft, _) = number_rule(&rule, Draft::new(), true).ok_or(Refusal::Lines)?;
        if draft.lines().len() > RULE_LINES {
            return Err(Refusal::Lines);
        }
        if draft.is_choosy() {
            return Err(Refusal::Choices);
        }
        Ok(NormalRule { rule })
    }

    // The rule itself.
    pub fn rule(&self) -> &Rule
        ensures { result.now ≡ self.now.rule }
    {
        &self.rule
    }

    // The rule that a text spells, or why it is refused.
    pub fn read<'a>(list: SignalList<'a>, text: &'a [u8]) -> Result<NormalRule, Refusal>
        ensures { RuleOf list.entry.bytes.now text.now result }
    {
        NormalRule::new(Rule::read(list, text)?)
    }
}

// The table of a rule's form, or of that of its negation.
fn alone(rule: &NormalRule, sign: bool) -> Table
    ensures { lines_of result ≡ tabled (nnf sign (formula_of rule.now.rule)) }
{
    let (draft, _) = number_rule(&rule.rule, Draft::new(), sign).unwrap();
    draft.table()
}

// The table of x's form and that of y's negation, joined.
fn joined(x: &NormalRule, y: &NormalRule) -> Table
    ensures { lines_of result ≡ tabled (form_of (both (formula_of x.now.rule) (formula_of y.now.rule))) }
{
    let (draft, left) = number_rule(&x.rule, Draft::new(), true).unwrap();
    let (mut draft, right) = number_rule(&y.rule, draft, false).unwrap();
    draft.enter(Line::And(left, right)).unwrap();
    draft.table()
}

impl Question {
    // Keep x.
    pub fn keep(x: &NormalRule) -> Question
        ensures { Asks (keeps (formula_of x.now.rule)) (lines_of result.table) }
    {
        Question {
            table: alone(x, true),
        }
    }

    // Break y.
    pub fn break_only(y: &NormalRule) -> Question
        ensures { Asks (breaks (formula_of y.now.rule)) (lines_of result.table) }
    {
        Question {
            table: alone(y, false),
        }
    }

    // Keep x and break y.
    pub fn keep_and_break(x: &NormalRule, y: &NormalRule) -> Question
        ensures { Asks (both (formula_of x.now.rule) (formula_of y.now.rule)) (lines_of result.table) }
    {
        Question {
            table: joined(x, y),
        }
    }

    // The question that two texts ask, each of which may be empty where its rule is absent, but not both.
    // The first is read before the second.
    pub fn read<'a>(list: SignalList<'a>, x: &'a [u8], y: &'a [u8]) -> Result<Question, Refusal>
        ensures { QuestionOf list.entry.bytes.now x.now y.now result }
    {
        match (x.is_empty(), y.is_empty()) {
            (true, _) => Ok(Question::break_only(&NormalRule::read(list, y)?)),
            (false, true) => Ok(Question::keep(&NormalRule::read(list, x)?)),
            (false, false) => {
                let kept = NormalRule::read(list, x)?;
                let broken = NormalRule::read(list, y)?;
                Ok(Question::keep_and_break(&kept, &broken))
            }
        }
    }

    // The same over the bytes of a list, which must be lawful.
    pub fn read_strictly(list: &[u8], x: &[u8], y: &[u8]) -> Result<Question, Refusal>
        ensures { StrictlyOf list.now x.now y.now result }
    {
        Question::read(SignalList::try_from(list)?, x, y)
    }
}
