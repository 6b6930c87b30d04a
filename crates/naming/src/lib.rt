// The names of a module: refusals 8 to 10, 41 and 42, what each name in use leads to, and the outline of the definitions.
#![tactic(auto)]

ghost use Rattle.std.specs.Prelude.{◌≡◌, ◌*◌, ◌≤◌, length};
ghost use Rattle.rule.specs.Rule.{judge};
ghost use Rattle.token.specs.Cut.{meanings_in};
ghost use Rattle.module_table.specs.Definition.{width, definitions_in};
ghost use Rattle.module_table.specs.Module.{most_definitions};
ghost use Rattle.outline.specs.Outline.{outline};
ghost use Rattle.scope.specs.Token.{classes_of, TokensHeld};
ghost use Rattle.naming.specs.Rules.{name_rules, after_count};
ghost use Rattle.naming.specs.Told.{plain, ValuesFilled, judgement, Holds};

mod again;
mod number;
mod offer;
mod unfit;
mod usage;

use again::judge_introduced;
use index::TokenIndex;
use module_table::WIDTH;
use number::fill_numbers;
use offer::judge_offers;
use outline::collect_outline;
use rule::Finding;
use usage::judge_uses;

// The rule of this number, which has one clause and is about one thing, is broken at token i.
fn plain_finding(number: u8, i: usize) -> Finding
    ensures { result ≡ plain number i }
{
    Finding {
        number,
        clause: 0,
        token: TokenIndex(i),
        other: TokenIndex(i),
    }
}

// Refusals 9, 10, 41 and 42, of a module whose definitions are collected. Where they are kept, each token has its value.
fn judge_names(
    text: &[u8],
    classes: &[u8],
    starts: &[u32],
    ends: &[u32],
    values: &mut [u32],
    definitions: &[usize],
) -> Result<(), Finding>
    requires tokens { TokensHeld text.now classes.now starts.now ends.now }
    requires values { length values.old ≡ length classes.now }
    requires outlined { definitions_in definitions.now ≡ outline (classes_of (meanings_in text.now)) }
    requires few { length (definitions_in definitions.now) ≤ most_definitions }
    ensures long { length values.new ≡ length values.old }
    ensures judged { result ≡ judge (after_count (meanings_in text.now)) }
    ensures filled { ValuesFilled (meanings_in text.now) result values.new }
{
    judge_introduced(text, classes, starts, ends, values)?;
    judge_offers(text, classes, starts, ends, values)?;
    judge_uses(text, classes, starts, ends, values, definitions)?;
    fill_numbers(text, classes, starts, ends, values);
    Ok(())
}

// Reads the names of a module: the rules on names, and where all are kept, the value of each token and the definitions, of which the
// answer says how many there are.
pub fn read_names(
    text: &[u8],
    classes: &[u8],
    starts: &[u32],
    ends: &[u32],
    values: &mut [u32],
    definitions: &mut [usize],
) -> Result<usize, Finding>
    requires tokens { TokensHeld text.now classes.now starts.now ends.now }
    requires values { length values.old ≡ length classes.now }
    requires definitions { length definitions.old ≡ most_definitions * width }
    ensures values_long { length values.new ≡ length values.old }
    ensures definitions_long { length definitions.new ≡ length definitions.old }
    ensures judged { judgement result ≡ judge (name_rules (meanings_in text.now)) }
    ensures holds { Holds (meanings_in text.now) result values.new definitions.new }
{
    let count = collect_outline(classes, definitions).map_err(|token| plain_finding(8, token.0))?;
    judge_names(
        text,
        classes,
        starts,
        ends,
        values,
        &definitions[..count * WIDTH],
    )?;
    Ok(count)
}
