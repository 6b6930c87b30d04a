// Refusals 16 to 18 of each definition in turn, in text order.
ghost use Rattle.std.specs.Prelude.{◌≡◌, ℕ, ◌≤◌, length};
ghost use Rattle.rule.specs.Rule.{judge_one, judge, each};
ghost use Rattle.module_table.specs.Definition.{definitions_in};
ghost use Rattle.enumeration.specs.Item.{spelling_in};
ghost use Rattle.syntax_check.specs.Refusal.{range_test_rule, item_test_rule, range_rule_of, items_of, item_rule_of};

use crate::test::{items_of, range_test};
use crate::{Demand, RangeTest};
use enumeration::judge_items;
use index::RecordIndex;
use module_table::{Definition, count, definition_at};
use range_list::judge_misplaced;
use rule::{Finding, judge_each};
use sub_type::judge_limits;

// What a test of ranges says, whichever refusal it is of.
fn judge_range_test(classes: &[u8], values: &[u32], test: RangeTest) -> Result<(), Finding>
    requires { length classes.now ≤ 65536 }
    ensures { (number : ℕ) → result ≡ judge_one (range_test_rule classes.now values.now number test) }
{
    match test {
        RangeTest::Untested => Ok(()),
        RangeTest::Placed(span) => judge_misplaced(classes, values, span),
        RangeTest::Within(limits, span) => judge_limits(classes, values, limits, span),
    }
}

// Refusal 16 or 17 of definition k.
fn judge_ranges_of(
    classes: &[u8],
    values: &[u32],
    definitions: &[usize],
    demand: Demand,
    k: RecordIndex,
) -> Result<(), Finding>
    requires { length classes.now ≤ 65536 }
    ensures { result ≡ judge_one (range_rule_of classes.now values.now (definitions_in definitions.now) demand k.0) }
{
    let d = definition_at(definitions, k);
    let test = range_test(classes, values, definitions, demand, d);
    judge_range_test(classes, values, test)
}

// Refusal 16 or 17 of all definitions.
pub fn judge_all_ranges(
    classes: &[u8],
    values: &[u32],
    definitions: &[usize],
    demand: Demand,
) -> Result<(), Finding>
    requires { length classes.now ≤ 65536 }
    ensures { result ≡ judge (each (range_rule_of classes.now values.now (definitions_in definitions.now) demand) 0 (length (definitions_in definitions.now))) }
{
    judge_each(
        0,
        count(definitions),
        |k| judge_ranges_of(classes, values, definitions, demand, RecordIndex(k)),
    )
}

// Refusal 18 of a definition.
fn judge_items_of(
    text: &[u8],
    starts: &[u32],
    ends: &[u32],
    classes: &[u8],
    values: &[u32],
    d: Definition,
) -> Result<(), Finding>
    requires { length classes.now ≤ 65536 }
    ensures { result ≡ judge_one (item_test_rule (spelling_in text.now starts.now ends.now) classes.now values.now (items_of classes.now d)) }
{
    match items_of(classes, d) {
        Some(items) => judge_items(text, starts, ends, classes, values, items),
        None => Ok(()),
    }
}

// Refusal 18 of all definitions.
pub fn judge_all_items(
    text: &[u8],
    starts: &[u32],
    ends: &[u32],
    classes: &[u8],
    values: &[u32],
    definitions: &[usize],
) -> Result<(), Finding>
    requires { length classes.now ≤ 65536 }
    ensures { result ≡ judge (each (item_rule_of (spelling_in text.now starts.now ends.now) classes.now values.now (definitions_in definitions.now)) 0 (length (definitions_in definitions.now))) }
{
    judge_each(0, count(definitions), |k| {
        let d = definition_at(definitions, RecordIndex(k));
        judge_items_of(text, starts, ends, classes, values, d)
    })
}
