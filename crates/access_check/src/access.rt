// The clauses of refusal 21 that are about one object.
ghost use Rattle.std.specs.Prelude.{◌≡◌};
ghost use Rattle.module_table.specs.Definition.{definitions_in};
ghost use Rattle.access_check.specs.Access.{has_access, first_with, open_table, created_alone, unfit_counter};
ghost use Rattle.access_check.specs.Found.{own_clause};

use definition::Span;
use index::TokenIndex;
use module_table::Definition;
use object_tree::{
    ACCESSIBLE_FOR_NOTIFY, COUNTER32, COUNTER64, NOT_ACCESSIBLE, READ_CREATE, READ_ONLY, is_object,
    is_row, is_table, numbered,
};
use sequence_list::named_at;

// Whether token i names an object of this access.
pub fn has_access(values: &[u32], definitions: &[usize], access: usize, i: TokenIndex) -> bool
    ensures { result ≡ has_access (definitions_in definitions.now) values.now access i.0 }
{
    let d = numbered(definitions, named_at(values, definitions, i));
    d.access == access
}

// The first token of a list that names an object of this access; the end of the list where none does.
pub fn first_with(values: &[u32], definitions: &[usize], access: usize, list: Span) -> usize
    ensures { result ≡ first_with (definitions_in definitions.now) values.now access list }
{
    let to = list.to;
    let mut i = list.from;
    while i < to {
        if has_access(values, definitions, access, TokenIndex(i)) {
            return i;
        }
        i += 1;
    }
    i
}

// Whether a table or a row isn't not-accessible.
fn is_open_table(d: Definition) -> bool
    ensures { result ≡ open_table d }
{
    (is_table(d) | is_row(d)) & (d.access != NOT_ACCESSIBLE)
}

// Whether an object is read-create and no column.
fn is_created_alone(definitions: &[usize], d: Definition) -> bool
    ensures { result ≡ created_alone (definitions_in definitions.now) d }
{
    (d.access == READ_CREATE) & !is_row(numbered(definitions, d.parent))
}

// Whether a counter has another access than it may have, or DEFVAL.
fn is_unfit_counter(d: Definition) -> bool
    ensures { result ≡ unfit_counter d }
{
    ((d.class == COUNTER32) | (d.class == COUNTER64))
        & (!((d.access == READ_ONLY) | (d.access == ACCESSIBLE_FOR_NOTIFY)) | (d.default == 1))
}

// The first clause but for a clash that puts an object at fault; 0 where none does.
pub fn own_clause(definitions: &[usize], d: Definition) -> u8
    ensures { result ≡ own_clause (definitions_in definitions.now) d }
{
    if !is_object(d) {
        return 0;
    }
    if is_open_table(d) {
        return 2;
    }
    if is_created_alone(definitions, d) {
        return 3;
    }
    if is_unfit_counter(d) {
        return 4;
    }
    0
}
