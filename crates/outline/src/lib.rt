// The outline of a module: its definitions in text order, each with its kind, its name and where its fields stand. All of it is read
// off the classes of the module's tokens.
#![tactic(auto)]

ghost use Rattle.std.specs.Prelude.{◌≡◌, ◌*◌, ◌≤◌, ◌<◌, length};
ghost use Rattle.index.specs.First.{first};
ghost use Rattle.definition.specs.Landmark.{begins, last_token};
ghost use Rattle.definition.specs.Fields.{fields_of};
ghost use Rattle.module_table.specs.Definition.{width};
ghost use Rattle.module_table.specs.Module.{most_definitions};
ghost use Rattle.outline.specs.Outline.{flag, outlined, Outlines};

use definition::{Fields, begins, definition_end, fields_of};
use index::{NumberIndex, RecordIndex, TokenIndex};
use module_table::{Definition, MOST_DEFINITIONS, store};

// A number that says whether something is there.
fn flag(there: bool) -> usize
    ensures { result ≡ flag there }
{
    if there { 1 } else { 0 }
}

// The definition whose name is this token and whose fields are these, before any later stage.
fn outlined(name: usize, f: Fields) -> Definition
    ensures { result ≡ outlined name f }
{
    let syntax = f.syntax;
    let index = f.index;
    let augments = f.augments;
    let objects = f.objects;
    let columns = f.columns;
    let oid = f.oid;
    Definition {
        kind: f.kind as usize,
        name: TokenIndex(name),
        status: f.status as usize,
        access: f.access as usize,
        default: flag(f.has_default),
        syntax,
        index,
        augments,
        objects,
        columns,
        oid,
        start: NumberIndex(0),
        count: 0,
        class: 0,
        sequence: 0,
        parent: 0,
    }
}

// Where the first definition from token a on begins; the last token where none does.
fn next_beginning(classes: &[u8], a: usize) -> usize
    requires few { length classes.now ≤ 65536 }
    requires inside { a ≤ last_token classes.now }
    ensures { result ≡ first (begins classes.now) a (last_token classes.now) }
{
    let mut i = a;
    while i + 1 < classes.len() {
        if begins(classes, classes.len(), i) {
            return i;
        }
        i += 1;
    }
    i
}

// The definition whose name is token d and which ends at token e.
fn definition_between(classes: &[u8], d: usize, e: usize) -> Definition
    requires early { d ≤ 65536 }
    requires short { e ≤ 65536 }
    ensures { result ≡ outlined d (fields_of classes.now d e) }
{
    outlined(d, fields_of(classes, classes.len(), d, e))
}

// Collects the definitions of a module, each when its end is found: so many there are. An Err is the name of the first that is too many.
pub fn collect_outline(classes: &[u8], definitions: &mut [usize]) -> Result<usize, TokenIndex>
    requires few { length classes.now ≤ 65536 }
    requires room { length definitions.old ≡ most_definitions * width }
    ensures long { length definitions.new ≡ length definitions.old }
    ensures held { Outlines classes.now definitions.new result }
{
    let mut count = 0;
    let mut d = next_beginning(classes, 0);
    while d + 1 < classes.len() {
        if count == MOST_DEFINITIONS {
            return Err(TokenIndex(d));
        }
        let e = definition_end(classes, classes.len(), d);
        store(
            definitions,
            RecordIndex(count),
            definition_between(classes, d, e),
        );
        count += 1;
        d = next_beginning(classes, e);
    }
    Ok(count)
}
