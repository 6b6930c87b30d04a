// The objects that the SEQUENCE type of their row names: each list marks the columns of its own row.
ghost use Rattle.std.specs.Prelude.{◌≡◌, cond, ℕ, ◌<◌, length, get_or, set};
ghost use Rattle.module_table.specs.Definition.{definitions_in};
ghost use Rattle.sequence_list.specs.Held.{places, row_type, ListedBy, ListedTable};

use crate::PLACES;
use crate::name::{columns_of, named_at, type_of};
use index::TokenIndex;
use object_tree::numbered;

// The SEQUENCE type of the parent of the object of a number.
fn row_type(definitions: &[usize], number: usize) -> usize
    ensures { result ≡ row_type (definitions_in definitions.now) number }
{
    let d = numbered(definitions, number);
    type_of(numbered(definitions, d.parent))
}

// Marks a number, where it is to be marked.
fn mark_if(listed: &mut [u8; PLACES], number: usize, wanted: bool)
    requires long { length listed.old ≡ places }
    requires inside { number < places }
    ensures { listed.new ≡ cond wanted (set listed.old number 1) listed.old }
{
    if wanted {
        listed[number] = 1;
    }
}

// Marks the columns that the SEQUENCE type of this number names for its row.
fn mark_listed(values: &[u32], definitions: &[usize], number: usize, listed: &mut [u8; PLACES])
    requires { length listed.old ≡ places }
    ensures { ListedBy (definitions_in definitions.now) values.now number listed.old listed.new }
{
    let list = columns_of(definitions, number);
    let to = list.to;
    let mut i = list.from;
    while i < to {
        let named = named_at(values, definitions, TokenIndex(i));
        mark_if(listed, named, row_type(definitions, named) == number);
        i += 1;
    }
}

// Marks all objects that the SEQUENCE type of their row names, in an array of zeros.
pub fn collect_listed(values: &[u32], definitions: &[usize], listed: &mut [u8; PLACES])
    requires long { length listed.old ≡ places }
    requires clear { (number : ℕ) → number < places → get_or listed.old number 0 ≡ 0 }
    ensures { ListedTable (definitions_in definitions.now) values.now listed.new }
{
    let mut number = 0;
    while number < PLACES {
        mark_listed(values, definitions, number, listed);
        number += 1;
    }
}
