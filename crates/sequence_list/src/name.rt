// The SEQUENCE type of a table or a row, its list, and the object that a token of the list names.
ghost use Rattle.std.specs.Prelude.{◌≡◌};
ghost use Rattle.module_table.specs.Definition.{definitions_in};
ghost use Rattle.sequence_list.specs.Named.{type_of, columns_of, named_at};

use definition::Span;
use index::TokenIndex;
use module_table::{Definition, MOST_DEFINITIONS};
use object_tree::{is_object, number_at, numbered};

// The SEQUENCE type of a table or a row by its number, counted from 1; 0 for none, and for a number that no definition can have.
pub fn type_of(d: Definition) -> usize
    ensures { result ≡ type_of d }
{
    if d.sequence < MOST_DEFINITIONS + 1 {
        return d.sequence;
    }
    0
}

// The list of the SEQUENCE type of a number.
pub fn columns_of(definitions: &[usize], number: usize) -> Span
    ensures { result ≡ columns_of (definitions_in definitions.now) number }
{
    let d = numbered(definitions, number);
    d.columns
}

// The object that token i names, by its number; 0 where it names none.
pub fn named_at(values: &[u32], definitions: &[usize], i: TokenIndex) -> usize
    ensures { result ≡ named_at (definitions_in definitions.now) values.now i.0 }
{
    let number = number_at(values, i);
    if is_object(numbered(definitions, number)) {
        return number;
    }
    0
}
