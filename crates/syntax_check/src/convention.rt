// Refusal 19: conventions that name something else than one of SMI's eight types.
ghost use Rattle.std.specs.Prelude.{◌≡◌, ◌≤◌, length};
ghost use Rattle.rule.specs.Each.{judge_at};
ghost use Rattle.rule.specs.Rule.{judge_one};
ghost use Rattle.module_table.specs.Definition.{definitions_in};
ghost use Rattle.syntax_check.specs.Refusal.{indirect_convention};

use index::{RecordIndex, TokenIndex};
use module_table::{count, definition_at};
use rule::{Finding, judge_each};
use type_class::is_indirect;

// Refusal 19 of definition k; the place is the convention's SYNTAX name.
fn judge_convention_at(
    classes: &[u8],
    values: &[u32],
    definitions: &[usize],
    k: RecordIndex,
) -> Result<(), Finding>
    requires { length classes.now ≤ 65536 }
    ensures { result ≡ judge_at (indirect_convention classes.now values.now (definitions_in definitions.now)) k.0 }
{
    let d = definition_at(definitions, k);
    if is_indirect(classes, values, d) {
        let place = d.syntax.from;
        return Err(Finding {
            number: 19,
            clause: 0,
            token: TokenIndex(place),
            other: TokenIndex(place),
        });
    }
    Ok(())
}

// Refusal 19 of all definitions.
pub fn judge_conventions(
    classes: &[u8],
    values: &[u32],
    definitions: &[usize],
) -> Result<(), Finding>
    requires { length classes.now ≤ 65536 }
    ensures { result ≡ judge_one (indirect_convention classes.now values.now (definitions_in definitions.now)) }
{
    judge_each(
        0,
        count(definitions),
        |k| judge_convention_at(classes, values, definitions, RecordIndex(k)),
    )
}
