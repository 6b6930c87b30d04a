// Refusal 12: whether the heads of a definition reach a built-in name.
ghost use Rattle.std.specs.Prelude.{◌≡◌, [], false, ℕ, ◌<◌, length};
ghost use Rattle.rule.specs.Each.{judge_at};
ghost use Rattle.rule.specs.Rule.{judge_one};
ghost use Rattle.module_table.specs.Definition.{definitions_in};
ghost use Rattle.module_table.specs.declared.Lead.TheVariants.{Definition};
ghost use Rattle.oid_head.specs.Oid.{named_in, reached_in};
ghost use Rattle.oid_head.specs.Unreached.{unreached};

use crate::finding::finding_at;
use crate::head::{has_value, head_of};
use index::RecordIndex;
use module_table::{Lead, count, definition_at};
use oid_number::symbol_length;
use rule::{Finding, judge_each};

// The number of the refusal.
const UNREACHED: u8 = 12;

// Whether a name reaches a built-in name, with so many heads left to follow: one that leads to a definition by that one's head.
#[cycle(definition_reaches_name_reaches)]
fn name_reaches(values: &[u32], definitions: &[usize], lead: Lead, left: usize) -> bool
    ensures { result ≡ reached_in (named_in [] values.now definitions.now) left lead }
{
    match lead {
        Lead::Iso => true,
        Lead::Import(k) => 0 < symbol_length(k),
        Lead::Definition(d) => definition_reaches(values, definitions, d, left),
        Lead::Nothing => false,
    }
}

// Whether a definition does, by its head's name.
#[cycle(definition_reaches_name_reaches)]
fn definition_reaches(values: &[u32], definitions: &[usize], d: RecordIndex, left: usize) -> bool
    ensures { result ≡ reached_in (named_in [] values.now definitions.now) left (Definition d) }
{
    if left == 0 {
        return false;
    }
    let own = definition_at(definitions, d);
    if !has_value(own) {
        return false;
    }
    name_reaches(values, definitions, head_of(values, own), left - 1)
}

// Whether the head of definition k reaches a built-in name, where each definition before it that has an OID value does: so an earlier
// one is not followed again.
fn head_reaches(values: &[u32], definitions: &[usize], head: Lead, k: RecordIndex) -> bool
    requires { (i : ℕ) → i < k.0 → (unreached (named_in [] values.now definitions.now)).breach i ≡ false }
    ensures { result ≡ reached_in (named_in [] values.now definitions.now)
        (length (definitions_in definitions.now)) head }
{
    let Lead::Definition(d) = head else {
        return name_reaches(values, definitions, head, count(definitions));
    };
    if d.0 < k.0 {
        return has_value(definition_at(definitions, d));
    }
    definition_reaches(values, definitions, d, count(definitions))
}

// Whether definition k has an OID value whose heads never reach a built-in name.
fn is_unreached(values: &[u32], definitions: &[usize], k: RecordIndex) -> bool
    requires { (i : ℕ) → i < k.0 → (unreached (named_in [] values.now definitions.now)).breach i ≡ false }
    ensures { result ≡ (unreached (named_in [] values.now definitions.now)).breach k.0 }
{
    let own = definition_at(definitions, k);
    if has_value(own) {
        return !head_reaches(values, definitions, head_of(values, own), k);
    }
    false
}

// Refusal 12 at definition k, where each definition before it keeps it.
fn judge_reached_at(values: &[u32], definitions: &[usize], k: RecordIndex) -> Result<(), Finding>
    requires { (i : ℕ) → i < k.0 → (unreached (named_in [] values.now definitions.now)).breach i ≡ false }
    ensures { result ≡ judge_at (unreached (named_in [] values.now definitions.now)) k.0 }
{
    if is_unreached(values, definitions, k) {
        return Err(finding_at(definitions, k, UNREACHED));
    }
    Ok(())
}

// The first definition whose heads never reach a built-in name.
pub fn judge_reached(values: &[u32], definitions: &[usize]) -> Result<(), Finding>
    ensures { result ≡ judge_one (unreached (named_in [] values.now definitions.now)) }
{
    judge_each(
        0,
        count(definitions),
        |k| judge_reached_at(values, definitions, RecordIndex(k)),
    )
}
