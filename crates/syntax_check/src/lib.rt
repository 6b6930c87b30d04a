// Refusals 16 to 19 over the definitions of a module whose classes are known.
#![tactic(auto)]

mod convention;
mod restriction;
mod test;

ghost use Rattle.std.specs.Prelude.{◌≡◌, ◌≤◌, length};
ghost use Rattle.rule.specs.Rule.{judge};
ghost use Rattle.module_table.specs.Definition.{definitions_in};
ghost use Rattle.enumeration.specs.Item.{spelling_in};
ghost use Rattle.syntax_check.specs.Refusal.{rules_over};

use convention::judge_conventions;
use definition::Span;
use restriction::{judge_all_items, judge_all_ranges};
use rule::Finding;
use sub_type::Limits;

// What is asked of the ranges of all definitions: refusal 16 or 17.
#[derive(Clone, Copy)]
pub enum Demand {
    Places,
    Limits,
}

// How the ranges of a definition are tested, if they are: against each other, or for their limits.
#[derive(Clone, Copy)]
pub enum RangeTest {
    Untested,
    Placed(Span),
    Within(Limits, Span),
}

// Refusals 16 to 19: 16 of all definitions before 17 of any, and so on.
pub fn judge_syntax(
    text: &[u8],
    starts: &[u32],
    ends: &[u32],
    classes: &[u8],
    values: &[u32],
    definitions: &[usize],
) -> Result<(), Finding>
    requires { length classes.now ≤ 65536 }
    ensures { result ≡ judge (rules_over (spelling_in text.now starts.now ends.now) classes.now values.now (definitions_in definitions.now)) }
{
    judge_all_ranges(classes, values, definitions, Demand::Places)?;
    judge_all_ranges(classes, values, definitions, Demand::Limits)?;
    judge_all_items(text, starts, ends, classes, values, definitions)?;
    judge_conventions(classes, values, definitions)
}
