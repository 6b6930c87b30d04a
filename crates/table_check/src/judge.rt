// The first object at fault by a clause of refusal 20.
ghost use Rattle.std.specs.Prelude.{◌≡◌, ◌≤◌, ◌<◌, length};
ghost use Rattle.rule.specs.Rule.{judge_one};
ghost use Rattle.module_table.specs.Definition.{definitions_in};
ghost use Rattle.module_table.specs.Module.{most_definitions};
ghost use Rattle.table_check.specs.Refusal.{table_broken};
ghost use Rattle.table_check.specs.Found.{picked, found};

use crate::against::other_token;
use clause_table::{collect_name_clauses, collect_row_clauses};
use index::RecordIndex;
use module_table::{Definition, MOST_DEFINITIONS, count, definition_at};
use object_tree::is_object;
use rule::Finding;

// The number of the refusal.
const TABLE_BROKEN: u8 = 20;

// The first of an object's clauses, by the first of each part; 0 for what is no object.
fn picked(d: Definition, row: u8, name: u8) -> u8
    ensures { result ≡ picked d row name }
{
    if !is_object(d) {
        return 0;
    }
    if row != 0 {
        return row;
    }
    name
}

// What there is to say of definition k, at fault by this clause.
fn found(values: &[u32], definitions: &[usize], k: RecordIndex, clause: u8) -> Finding
    requires { k.0 < most_definitions }
    ensures { result ≡ found (definitions_in definitions.now) values.now k.0 clause }
{
    let d = definition_at(definitions, k);
    let token = d.name;
    Finding {
        number: TABLE_BROKEN,
        clause,
        token,
        other: other_token(values, definitions, k, clause),
    }
}

// What the rule says.
pub fn judge_tables(values: &[u32], definitions: &[usize], numbers: &[u32]) -> Result<(), Finding>
    requires { length (definitions_in definitions.now) ≤ most_definitions }
    ensures { result ≡ judge_one (table_broken (definitions_in definitions.now) values.now numbers.now) }
{
    let mut row_clauses = [0u8; MOST_DEFINITIONS];
    collect_row_clauses(definitions, numbers, &mut row_clauses);
    let mut name_clauses = [0u8; MOST_DEFINITIONS];
    collect_name_clauses(values, definitions, &mut name_clauses);
    for k in 0..count(definitions) {
        let clause = picked(
            definition_at(definitions, RecordIndex(k)),
            row_clauses[k],
            name_clauses[k],
        );
        if clause != 0 {
            return Err(found(values, definitions, RecordIndex(k), clause));
        }
    }
    Ok(())
}
