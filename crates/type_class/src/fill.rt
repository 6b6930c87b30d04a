// The classes, stored with the definitions: all conventions first, and then the objects, which look at those of the conventions.
ghost use Rattle.std.specs.Prelude.{◌≡◌, ◌≤◌, length};
ghost use Rattle.module_table.specs.Definition.{definitions_in};
ghost use Rattle.type_class.specs.Stage.{with_class, convention_classed, conventions_classed};
ghost use Rattle.type_class.specs.Stage.{object_classed, objects_classed, definitions_classed};

use crate::class_of::{convention_class, object_class, sequence_number};
use crate::type_name::syntax_in;
use definition::kind;
use index::RecordIndex;
use module_table::{Definition, count, definition_at, store};

// A definition with another class and another SEQUENCE type.
fn with_class(d: Definition, class: usize, sequence: usize) -> Definition
    ensures { result ≡ with_class d class sequence }
{
    let mut e = d;
    e.class = class;
    e.sequence = sequence;
    e
}

// A convention gets its class.
fn convention_classed(classes: &[u8], values: &[u32], d: Definition) -> Definition
    requires { length classes.now ≤ 65536 }
    ensures { result ≡ convention_classed classes.now values.now d }
{
    if d.kind == kind::CONVENTION as usize {
        let class = convention_class(values, syntax_in(classes, d.syntax));
        return with_class(d, class, d.sequence);
    }
    d
}

// All conventions get theirs.
fn collect_conventions(classes: &[u8], values: &[u32], definitions: &mut [usize])
    requires { length classes.now ≤ 65536 }
    ensures definitions_after { definitions_in definitions.new ≡ conventions_classed classes.now values.now (definitions_in definitions.old) }
    ensures definitions_len_unchanged { length definitions.new ≡ length definitions.old }
{
    let n = count(definitions);
    let mut k = 0;
    while k < n {
        let d = definition_at(definitions, RecordIndex(k));
        store(
            definitions,
            RecordIndex(k),
            convention_classed(classes, values, d),
        );
        k += 1;
    }
}

// An object gets its class and its SEQUENCE type.
fn object_classed(
    classes: &[u8],
    values: &[u32],
    definitions: &[usize],
    d: Definition,
) -> Definition
    requires { length classes.now ≤ 65536 }
    ensures { result ≡ object_classed classes.now values.now (definitions_in definitions.now) d }
{
    if d.kind == kind::OBJECT as usize {
        let syntax = syntax_in(classes, d.syntax);
        let class = object_class(values, definitions, syntax);
        return with_class(d, class, sequence_number(values, class, syntax));
    }
    d
}

// All objects get theirs.
fn collect_objects(classes: &[u8], values: &[u32], definitions: &mut [usize])
    requires { length classes.now ≤ 65536 }
    ensures definitions_after { definitions_in definitions.new ≡ objects_classed classes.now values.now (definitions_in definitions.old) }
    ensures definitions_len_unchanged { length definitions.new ≡ length definitions.old }
{
    let n = count(definitions);
    let mut k = 0;
    while k < n {
        let d = definition_at(definitions, RecordIndex(k));
        let classed = object_classed(classes, values, definitions, d);
        store(definitions, RecordIndex(k), classed);
        k += 1;
    }
}

// Stores the class of each definition, and the SEQUENCE type of each table and row.
pub fn collect_classes(classes: &[u8], values: &[u32], definitions: &mut [usize])
    requires { length classes.now ≤ 65536 }
    ensures definitions_after { definitions_in definitions.new ≡ definitions_classed classes.now values.now (definitions_in definitions.old) }
    ensures definitions_len_unchanged { length definitions.new ≡ length definitions.old }
{
    collect_conventions(classes, values, definitions);
    collect_objects(classes, values, definitions);
}
