// What is noted of each SEQUENCE list: whether it names an object twice, and whether the objects that it names have one parent.
ghost use Rattle.std.specs.Prelude.{◌≡◌, ◌+◌, ◌<◌, length};
ghost use Rattle.module_table.specs.Definition.{definitions_in};
ghost use Rattle.sequence_list.specs.Named.{is_stranger, first_repeated, first_stranger};
ghost use Rattle.sequence_list.specs.Held.{places, first_named, parent_named, verdict_of, VerdictTable, Stamped, Answered, Marked};

use crate::PLACES;
use crate::name::{columns_of, named_at};
use index::TokenIndex;
use object_tree::numbered;

// What is noted of a list: it names no object; all that it names have one parent; they have several; it names one twice.
const NAMELESS: u8 = 0;

pub const ALIKE: u8 = 1;

pub const MIXED: u8 = 2;

pub const REPEATING: u8 = 3;

// Marks an object with the stamp, and answers whether it had it already; 0 is no object.
fn mark(marks: &mut [usize; PLACES], number: usize, stamp: usize) -> bool
    requires long { length marks.old ≡ places }
    requires inside { number < places }
    ensures { Marked marks.old number stamp result marks.new }
{
    let before = marks[number];
    marks[number] = stamp;
    (number != 0) & (before == stamp)
}

// The first token of the list of the SEQUENCE type of a number that names an object which one before it names too; the end of the list
// where none does. The objects of the list are marked with a stamp of its own, over all marks before.
fn search_repeated(
    values: &[u32],
    definitions: &[usize],
    number: usize,
    marks: &mut [usize; PLACES],
) -> usize
    requires stamped { Stamped marks.old (number + 1) }
    requires inside { number < places }
    ensures { Answered result (first_repeated (definitions_in definitions.now) values.now number) marks.new (number + 1 + 1) }
{
    let list = columns_of(definitions, number);
    let stamp = number + 1;
    let to = list.to;
    let mut i = list.from;
    while i < to {
        if mark(marks, named_at(values, definitions, TokenIndex(i)), stamp) {
            return i;
        }
        i += 1;
    }
    i
}

// That token, by marks of its own.
pub fn first_repeated(values: &[u32], definitions: &[usize], number: usize) -> usize
    requires { number < places }
    ensures { result ≡ first_repeated (definitions_in definitions.now) values.now number }
{
    let mut marks = [0usize; PLACES];
    search_repeated(values, definitions, number, &mut marks)
}

// The first token of the type's list that names an object; its end where none does.
fn first_named(values: &[u32], definitions: &[usize], number: usize) -> usize
    ensures { result ≡ first_named (definitions_in definitions.now) values.now number }
{
    let list = columns_of(definitions, number);
    let to = list.to;
    let mut i = list.from;
    while i < to {
        if named_at(values, definitions, TokenIndex(i)) != 0 {
            return i;
        }
        i += 1;
    }
    i
}

// The parent of the first object that the type names.
fn parent_named(values: &[u32], definitions: &[usize], number: usize) -> usize
    ensures { result ≡ parent_named (definitions_in definitions.now) values.now number }
{
    let i = first_named(values, definitions, number);
    let d = numbered(definitions, named_at(values, definitions, TokenIndex(i)));
    d.parent
}

// Whether token i names an object of another parent.
fn is_stranger(values: &[u32], definitions: &[usize], parent: usize, i: TokenIndex) -> bool
    ensures { result ≡ is_stranger (definitions_in definitions.now) values.now parent i.0 }
{
    let named = named_at(values, definitions, i);
    let d = numbered(definitions, named);
    (named != 0) & (d.parent != parent)
}

// The first token of the type's list that names an object of another parent; its end where none does.
pub fn first_stranger(values: &[u32], definitions: &[usize], number: usize, parent: usize) -> usize
    ensures { result ≡ first_stranger (definitions_in definitions.now) values.now number parent }
{
    let list = columns_of(definitions, number);
    let to = list.to;
    let mut i = list.from;
    while i < to {
        if is_stranger(values, definitions, parent, TokenIndex(i)) {
            return i;
        }
        i += 1;
    }
    i
}

// What is noted of the list of the SEQUENCE type of a number.
fn verdict_of(
    values: &[u32],
    definitions: &[usize],
    number: usize,
    marks: &mut [usize; PLACES],
) -> u8
    requires stamped { Stamped marks.old (number + 1) }
    requires inside { number < places }
    ensures { Answered result (verdict_of (definitions_in definitions.now) values.now number) marks.new (number + 1 + 1) }
{
    let list = columns_of(definitions, number);
    if search_repeated(values, definitions, number, marks) < list.to {
        return REPEATING;
    }
    if list.to <= first_named(values, definitions, number) {
        return NAMELESS;
    }
    let parent = parent_named(values, definitions, number);
    if first_stranger(values, definitions, number, parent) < list.to {
        return MIXED;
    }
    ALIKE
}

// Notes the verdict on each list, and the parent of the first object that it names.
pub fn collect_verdicts(
    values: &[u32],
    definitions: &[usize],
    verdicts: &mut [u8; PLACES],
    parents: &mut [usize; PLACES],
)
    requires verdicts { length verdicts.old ≡ places }
    requires parents { length parents.old ≡ places }
    ensures { VerdictTable (definitions_in definitions.now) values.now verdicts.new parents.new }
{
    let mut marks = [0usize; PLACES];
    let mut number = 0;
    while number < PLACES {
        verdicts[number] = verdict_of(values, definitions, number, &mut marks);
        parents[number] = parent_named(values, definitions, number);
        number += 1;
    }
}
