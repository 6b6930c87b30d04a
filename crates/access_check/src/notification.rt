// The clauses of refusal 22.
ghost use Rattle.std.specs.Prelude.{◌≡◌, length, ◌≤◌};
ghost use Rattle.module_table.specs.Definition.{definitions_in};
ghost use Rattle.module_table.specs.Module.{oid_in};
ghost use Rattle.access_check.specs.Notification.{TwoNumbers, is_not_zeroed, lists_hidden, notification_clause, notification_other};

use crate::access::first_with;
use index::{RecordIndex, TokenIndex};
use module_table::{Definition, definition_at};
use object_tree::{NOT_ACCESSIBLE, is_notification};
use oid_run::run_of;

// Whether the next-to-last number of an OID isn't 0. It has two at least: a head has one, and the grammar has a part behind it.
fn is_not_zeroed(numbers: &[u32], d: Definition) -> bool
    requires { 2 ≤ length (oid_in numbers.now d) }
    ensures { result ≡ is_not_zeroed (oid_in numbers.now d) }
{
    let run = run_of(numbers, d);
    let from = run.from;
    let at = from.0 + (run.count - 2);
    numbers[at] != 0
}

// Whether a notification lists a not-accessible object.
fn lists_hidden(values: &[u32], definitions: &[usize], d: Definition) -> bool
    ensures { result ≡ lists_hidden (definitions_in definitions.now) values.now d }
{
    let list = d.objects;
    first_with(values, definitions, NOT_ACCESSIBLE, list) < list.to
}

// The first clause that puts definition k at fault, which is a notification; 0 where none does.
pub fn notification_clause(
    values: &[u32],
    definitions: &[usize],
    numbers: &[u32],
    k: RecordIndex,
) -> u8
    requires { TwoNumbers (definitions_in definitions.now) numbers.now }
    ensures { result ≡ notification_clause (definitions_in definitions.now) values.now numbers.now k.0 }
{
    let d = definition_at(definitions, k);
    if !is_notification(d) {
        return 0;
    }
    if is_not_zeroed(numbers, d) {
        return 1;
    }
    if lists_hidden(values, definitions, d) {
        return 2;
    }
    0
}

// The token that definition k stands against by a clause: a name in its OBJECTS, or its own.
pub fn notification_other(
    values: &[u32],
    definitions: &[usize],
    clause: u8,
    k: RecordIndex,
) -> TokenIndex
    ensures { result.0 ≡ notification_other (definitions_in definitions.now) values.now k.0 clause }
{
    let d = definition_at(definitions, k);
    if clause == 2 {
        return TokenIndex(first_with(values, definitions, NOT_ACCESSIBLE, d.objects));
    }
    d.name
}
