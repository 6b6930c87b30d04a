// "No read-write column in a row that has a read-create one": the first such column.
ghost use Rattle.std.specs.Prelude.{◌≡◌, length};
ghost use Rattle.index.specs.First.{first};
ghost use Rattle.module_table.specs.Definition.{definitions_in};
ghost use Rattle.access_check.specs.Access.{clashes, access_other};
ghost use Rattle.access_check.specs.Found.{written_type};

use crate::access::{first_with, has_access};
use index::{RecordIndex, TokenIndex};
use module_table::{count, definition_at};
use object_tree::{READ_CREATE, READ_WRITE, is_object, is_row, numbered};
use sequence_list::{PLACES, columns_of, named_at, type_of};

// The SEQUENCE type of the row of a read-write column; 0 for any other definition.
fn written_type(definitions: &[usize], k: RecordIndex) -> usize
    ensures { result ≡ written_type (definitions_in definitions.now) k.0 }
{
    let d = definition_at(definitions, k);
    let row = numbered(definitions, d.parent);
    if (is_object(d) & (d.access == READ_WRITE)) & is_row(row) {
        return type_of(row);
    }
    0
}

// The first read-write column in a row that has a read-create one; the number of definitions where there is none. A list without a
// read-create column is walked once, for all columns of its row.
pub fn first_clash(values: &[u32], definitions: &[usize]) -> usize
    ensures { result ≡ first (clashes (definitions_in definitions.now) values.now) 0 (length (definitions_in definitions.now)) }
{
    let n = count(definitions);
    let mut clear = [0u8; PLACES];
    let mut k = 0;
    'records: while k < n {
        let number = written_type(definitions, RecordIndex(k));
        if clear[number] == 0 {
            let list = columns_of(definitions, number);
            let to = list.to;
            let mut i = list.from;
            while i < to {
                if has_access(values, definitions, READ_CREATE, TokenIndex(i)) {
                    break 'records;
                }
                i += 1;
            }
            clear[number] = 1;
        }
        k += 1;
    }
    k
}

// The token that definition k stands against by a clause of refusal 21: the name of the read-create column of a clash, or its own.
pub fn access_other(values: &[u32], definitions: &[usize], clause: u8, k: RecordIndex) -> TokenIndex
    ensures { result.0 ≡ access_other (definitions_in definitions.now) values.now k.0 clause }
{
    let d = definition_at(definitions, k);
    if clause == 1 {
        let list = columns_of(definitions, type_of(numbered(definitions, d.parent)));
        let i = first_with(values, definitions, READ_CREATE, list);
        let column = numbered(definitions, named_at(values, definitions, TokenIndex(i)));
        return column.name;
    }
    d.name
}
