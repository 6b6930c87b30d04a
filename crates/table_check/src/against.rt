// What an object at fault stands against, by the clause: a definition, or a name in its list.
ghost use Rattle.std.specs.Prelude.{◌≡◌, ◌<◌, length};
ghost use Rattle.index.specs.First.{first};
ghost use Rattle.module_table.specs.Definition.{definitions_in};
ghost use Rattle.module_table.specs.Module.{most_definitions};
ghost use Rattle.clause_table.specs.Clause.{is_of};
ghost use Rattle.table_check.specs.Refusal.{definition_or, type_against, row_against, table_against, other_by, other_token};

use index::{RecordIndex, TokenIndex};
use module_table::{count, definition_at};
use object_tree::{ROW, TABLE, is_object, number_at};
use sequence_list::{first_repeated, first_stranger, type_of};

// Whether definition r is an object of this class whose SEQUENCE type has this number.
fn is_of(definitions: &[usize], class: usize, number: usize, r: RecordIndex) -> bool
    ensures { result ≡ is_of (definitions_in definitions.now) class number r.0 }
{
    let d = definition_at(definitions, r);
    (is_object(d) & (d.class == class)) & (type_of(d) == number)
}

// The first such object from an index on; the number of definitions where there is none, or the index past it.
fn first_of(definitions: &[usize], class: usize, number: usize, from: RecordIndex) -> RecordIndex
    ensures { result.0 ≡ first (is_of (definitions_in definitions.now) class number) from.0 (length (definitions_in definitions.now)) }
{
    let n = count(definitions);
    let mut r = from.0;
    while r < n {
        if is_of(definitions, class, number, RecordIndex(r)) {
            return RecordIndex(r);
        }
        r += 1;
    }
    RecordIndex(r)
}

// The definition of a number, counted from 1; k where it is 0.
fn definition_or(k: RecordIndex, number: usize) -> RecordIndex
    ensures { result.0 ≡ definition_or k.0 number }
{
    if number == 0 {
        return k;
    }
    RecordIndex(number - 1)
}

// The SEQUENCE type of definition k, else itself.
fn type_against(definitions: &[usize], k: RecordIndex) -> RecordIndex
    ensures { result.0 ≡ type_against (definitions_in definitions.now) k.0 }
{
    definition_or(k, type_of(definition_at(definitions, k)))
}

// The second row of its SEQUENCE type, else the first, else the type, else itself.
fn row_against(definitions: &[usize], k: RecordIndex) -> RecordIndex
    ensures { result.0 ≡ row_against (definitions_in definitions.now) k.0 }
{
    let n = count(definitions);
    let number = type_of(definition_at(definitions, k));
    let first = first_of(definitions, ROW, number, RecordIndex(0));
    if n <= first.0 {
        return type_against(definitions, k);
    }
    let second = first_of(definitions, ROW, number, RecordIndex(first.0 + 1));
    if n <= second.0 {
        return first;
    }
    second
}

// The first table of its SEQUENCE type, else the type, else itself.
fn table_against(definitions: &[usize], k: RecordIndex) -> RecordIndex
    ensures { result.0 ≡ table_against (definitions_in definitions.now) k.0 }
{
    let n = count(definitions);
    let number = type_of(definition_at(definitions, k));
    let first = first_of(definitions, TABLE, number, RecordIndex(0));
    if n <= first.0 {
        return type_against(definitions, k);
    }
    first
}

// The definition that definition k stands against by a clause.
fn other_by(values: &[u32], definitions: &[usize], k: RecordIndex, clause: u8) -> RecordIndex
    ensures { result.0 ≡ other_by (definitions_in definitions.now) values.now k.0 clause }
{
    if clause == 1 {
        return row_against(definitions, k);
    }
    if clause == 2 {
        return table_against(definitions, k);
    }
    let d = definition_at(definitions, k);
    if clause == 7 {
        return definition_or(k, d.parent);
    }
    if clause == 8 {
        let list = d.augments;
        let from = list.from;
        return definition_or(k, number_at(values, TokenIndex(from)));
    }
    k
}

// The token that it stands against: a name of its SEQUENCE type's list, or the name of a definition.
pub fn other_token(values: &[u32], definitions: &[usize], k: RecordIndex, clause: u8) -> TokenIndex
    requires { k.0 < most_definitions }
    ensures { result.0 ≡ other_token (definitions_in definitions.now) values.now k.0 clause }
{
    let number = type_of(definition_at(definitions, k));
    if clause == 5 {
        return TokenIndex(first_repeated(values, definitions, number));
    }
    if clause == 6 {
        return TokenIndex(first_stranger(values, definitions, number, k.0 + 1));
    }
    let other = definition_at(definitions, other_by(values, definitions, k, clause));
    other.name
}
