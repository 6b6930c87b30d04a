// The writer of OIDs. An OID is its head's followed by the parts' numbers, so the head's name is resolved first, and what is left of
// the buffer is lent on for the parts. A head's name may lead to a definition, whose OID has a head again: the two functions call
// each other, with one head less to follow each time. Where the head is defined earlier its numbers stand in the buffer already,
// and are copied.
ghost use Rattle.std.specs.Prelude.{◌≡◌, true, ◌++◌, ◌+◌, ◌≤◌, ◌<◌, length, take};
ghost use Rattle.token.specs.Table.{overlaid};
ghost use Rattle.module_table.specs.Definition.{definitions_in};
ghost use Rattle.module_table.specs.Module.{oid_in};
ghost use Rattle.oid_number.specs.Number.{parts_in};
ghost use Rattle.oid_head.specs.Oid.{named_in, reached_in, reaches, name_numbers, resolved_oid, numbers_before, first_number};
ghost use Rattle.overlay.specs.Writing.{Written};
ghost use Rattle.oid_number.specs.Buffer.{laid_at};
ghost use Rattle.oid_head.specs.Unreached.{AllReach};
ghost use Rattle.oid_tree.specs.Writing.{Placed};

use index::{NumberIndex, RecordIndex};
use module_table::{Definition, Lead, count, definition_at};
use oid_head::{has_value, head_of};
use oid_number::{copy_numbers, write_iso, write_parts, write_symbol};

// Writes the numbers of what a name leads to, with so many heads left to follow, and answers how many they are.
#[cycle(write_definition_write_name)]
fn write_name(
    classes: &[u8],
    values: &[u32],
    definitions: &[usize],
    numbers: &mut [u32],
    lead: Lead,
    left: usize,
) -> usize
    requires reached { reached_in (named_in classes.now values.now definitions.now) left lead ≡ true }
    requires room { length (name_numbers (resolved_oid (named_in classes.now values.now definitions.now)) lead) ≤ length
        numbers.old }
    ensures { Written (name_numbers (resolved_oid
        (named_in classes.now values.now definitions.now)) lead) result numbers.old
        numbers.new }
{
    match lead {
        Lead::Iso => write_iso(numbers),
        Lead::Import(k) => write_symbol(numbers, k),
        Lead::Definition(d) => write_definition(classes, values, definitions, numbers, d, left),
        Lead::Nothing => 0,
    }
}

// Writes the numbers of definition d, with so many heads left to follow, and answers how many they are.
#[cycle(write_definition_write_name)]
fn write_definition(
    classes: &[u8],
    values: &[u32],
    definitions: &[usize],
    numbers: &mut [u32],
    d: RecordIndex,
    left: usize,
) -> usize
    requires reached { reached_in (named_in classes.now values.now definitions.now) left (Lead.Definition d) ≡ true }
    requires room { length (resolved_oid (named_in classes.now values.now definitions.now) d.0) ≤ length numbers.old }
    ensures { Written (resolved_oid (named_in classes.now values.now definitions.now) d.0) result
        numbers.old numbers.new }
{
    let own = definition_at(definitions, d);
    if left == 0 {
        return 0;
    }
    let head = head_of(values, own);
    let count = write_name(classes, values, definitions, numbers, head, left - 1);
    let rest = &mut numbers[count..];
    count + write_parts(classes, values, rest, own.oid)
}

// Writes the OID of a definition whose head is defined earlier: the head's numbers, copied, and behind them its own parts'.
fn write_behind(
    classes: &[u8],
    values: &[u32],
    numbers: &mut [u32],
    head: Definition,
    own: Definition,
)
    requires apart { head.start.0 + head.count ≤ own.start.0 }
    requires room { own.start.0 + (head.count + length (parts_in classes.now values.now own.oid)) ≤ length numbers.old }
    ensures { numbers.new ≡ laid_at own.start.0
        (oid_in numbers.old head ++ parts_in classes.now values.now own.oid) numbers.old }
{
    let count = head.count;
    copy_numbers(numbers, head.start, own.start, count);
    let at = own.start.0 + count;
    let rest = &mut numbers[at..];
    write_parts(classes, values, rest, own.oid);
}

// Writes the OID of definition k by following its heads. As many as there are definitions are far enough.
fn write_followed(
    classes: &[u8],
    values: &[u32],
    definitions: &[usize],
    numbers: &mut [u32],
    k: RecordIndex,
    at: NumberIndex,
)
    requires reached { reaches (named_in classes.now values.now definitions.now) k.0 ≡ true }
    requires room { at.0 + length (resolved_oid (named_in classes.now values.now definitions.now) k.0) ≤ length
        numbers.old }
    ensures { numbers.new ≡ laid_at at.0
        (resolved_oid (named_in classes.now values.now definitions.now) k.0) numbers.old }
{
    let start = at.0;
    let left = count(definitions);
    let rest = &mut numbers[start..];
    write_definition(classes, values, definitions, rest, k, left);
}

// Writes the OID of definition k, if it has one, behind those of the definitions before it.
fn write_oid(
    classes: &[u8],
    values: &[u32],
    definitions: &[usize],
    numbers: &mut [u32],
    k: RecordIndex,
)
    requires reach { AllReach (named_in classes.now values.now definitions.now) }
    requires placed { Placed (named_in classes.now values.now definitions.now) }
    requires room { first_number (named_in classes.now values.now definitions.now) (k.0 + 1) ≤ length numbers.old }
    requires held { take (first_number (named_in classes.now values.now definitions.now) k.0) numbers.old ≡ numbers_before
        (named_in classes.now values.now definitions.now) k.0 }
    ensures { numbers.new ≡ laid_at (first_number
        (named_in classes.now values.now definitions.now) k.0)
        (resolved_oid (named_in classes.now values.now definitions.now) k.0) numbers.old }
{
    let own = definition_at(definitions, k);
    if !has_value(own) {
        return;
    }
    let head = head_of(values, own);
    let Lead::Definition(d) = head else {
        write_followed(classes, values, definitions, numbers, k, own.start);
        return;
    };
    if d.0 < k.0 {
        write_behind(classes, values, numbers, definition_at(definitions, d), own);
        return;
    }
    write_followed(classes, values, definitions, numbers, k, own.start);
}

// Writes the OIDs of all definitions in text order, each one's into the next free words.
pub fn write_oids(classes: &[u8], values: &[u32], definitions: &[usize], numbers: &mut [u32])
    requires reach { AllReach (named_in classes.now values.now definitions.now) }
    requires placed { Placed (named_in classes.now values.now definitions.now) }
    requires room { first_number (named_in classes.now values.now definitions.now) (length (definitions_in definitions.now)) ≤
        length numbers.old }
    ensures { numbers.new ≡ overlaid
        (numbers_before (named_in classes.now values.now definitions.now)
        (length (definitions_in definitions.now))) numbers.old }
{
    let c = count(definitions);
    let mut k = 0;
    while k < c {
        write_oid(classes, values, definitions, numbers, RecordIndex(k));
        k += 1;
    }
}
