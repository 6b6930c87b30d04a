// How many numbers OIDs have, and where each starts among the numbers of all of them.
ghost use Rattle.std.specs.Prelude.{◌≡◌, true, cond, ◌*◌, ◌≤◌, length};
ghost use Rattle.token.specs.Table.{longest_text};
ghost use Rattle.module_table.specs.Definition.{width};
ghost use Rattle.module_table.specs.Module.{most_definitions};
ghost use Rattle.oid_head.specs.Oid.{named_in, has_value, reached_in, name_numbers, resolved_oid};
ghost use Rattle.oid_tree.specs.Stage.{with_run};
ghost use Rattle.oid_head.specs.Unreached.{AllReach};
ghost use Rattle.oid_tree.specs.Writing.{Countable, Measured};

use index::{NumberIndex, RecordIndex};
use module_table::{Definition, Lead, count, definition_at, store};
use oid_head::{has_value, head_of};
use oid_number::{count_parts, symbol_length};

// How many numbers the OID has that a name leads to, with so many heads left to follow. The first `known` definitions say how many
// theirs has.
#[cycle(definition_length_name_length)]
fn name_length(
    classes: &[u8],
    values: &[u32],
    definitions: &[usize],
    known: usize,
    lead: Lead,
    left: usize,
) -> usize
    requires countable { Countable (named_in classes.now values.now definitions.now) known }
    requires reached { reached_in (named_in classes.now values.now definitions.now) left lead ≡ true }
    ensures { result ≡ length (name_numbers (resolved_oid
        (named_in classes.now values.now definitions.now)) lead) }
{
    match lead {
        Lead::Iso => 1,
        Lead::Import(k) => symbol_length(k),
        Lead::Definition(d) => definition_length(classes, values, definitions, known, d, left),
        Lead::Nothing => 0,
    }
}

// How many numbers a definition's OID has: its head's, and one for each part.
#[cycle(definition_length_name_length)]
fn definition_length(
    classes: &[u8],
    values: &[u32],
    definitions: &[usize],
    known: usize,
    d: RecordIndex,
    left: usize,
) -> usize
    requires countable { Countable (named_in classes.now values.now definitions.now) known }
    requires reached { reached_in (named_in classes.now values.now definitions.now) left (Lead.Definition d) ≡ true }
    ensures { result ≡ length (resolved_oid (named_in classes.now values.now definitions.now) d.0) }
{
    let own = definition_at(definitions, d);
    if d.0 < known {
        return own.count;
    }
    if left == 0 {
        return 0;
    }
    let head = head_of(values, own);
    let count = name_length(classes, values, definitions, known, head, left - 1);
    count + count_parts(classes, own.oid)
}

// How many numbers the OID of definition k has, where those before it say how many they have; none if its kind has no OID.
fn oid_length(classes: &[u8], values: &[u32], definitions: &[usize], k: RecordIndex) -> usize
    requires countable { Countable (named_in classes.now values.now definitions.now) k.0 }
    requires reach { AllReach (named_in classes.now values.now definitions.now) }
    ensures { result ≡ length (resolved_oid (named_in classes.now values.now definitions.now) k.0) }
{
    if has_value(definition_at(definitions, k)) {
        return definition_length(classes, values, definitions, k.0, k, count(definitions));
    }
    0
}

// Where the numbers of a definition start: a definition that has no OID at 0.
fn start_of(d: Definition, start: NumberIndex) -> NumberIndex
    ensures { result.0 ≡ cond (has_value d) start.0 0 }
{
    if has_value(d) { start } else { NumberIndex(0) }
}

// A definition with the run of its OID, which is so long and starts there if there is one.
fn with_run(mut d: Definition, start: NumberIndex, count: usize) -> Definition
    ensures { result ≡ with_run (cond (has_value d) start.0 0) count d }
{
    let own = start_of(d, start);
    d.start = own;
    d.count = count;
    d
}

// Has each definition say where its numbers start among those of all, and how many they are.
pub fn measure(classes: &[u8], values: &[u32], definitions: &mut [usize])
    requires short { length classes.now ≤ longest_text }
    requires few { length definitions.old ≤ most_definitions * width }
    requires reach { AllReach (named_in classes.now values.now definitions.old) }
    ensures { Measured (named_in classes.now values.now definitions.old)
        definitions.old definitions.new }
{
    let c = count(definitions);
    let mut start = 0;
    let mut k = 0;
    while k < c {
        let length = oid_length(classes, values, definitions, RecordIndex(k));
        let own = definition_at(definitions, RecordIndex(k));
        store(
            definitions,
            RecordIndex(k),
            with_run(own, NumberIndex(start), length),
        );
        start += length;
        k += 1;
    }
}
