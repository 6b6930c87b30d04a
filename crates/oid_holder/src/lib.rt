// Refusal 15: an OID that an earlier definition already holds. Definitions are chained by the keys of their OIDs, so that an OID is
// compared only with those of its own key.
#![tactic(auto)]

ghost use Rattle.std.specs.Prelude.{◌≡◌, ◌*◌, ◌≤◌, ◌<◌, length};
ghost use Rattle.index.specs.First.{any};
ghost use Rattle.chain.specs.Chain.{Chained, most_entries};
ghost use Rattle.rule.specs.Rule.{finding, judge_one};
ghost use Rattle.lexicon.specs.Word.{same};
ghost use Rattle.module_table.specs.Definition.{width, definitions_in};
ghost use Rattle.module_table.specs.Module.{oid_in, most_definitions};
ghost use Rattle.oid_holder.specs.Holder.{is_holder, holds_oid, earlier_holder, held_twice, key_at};

use chain::{ENTRIES, KEYS, insert};
use definition::kind;
use index::RecordIndex;
use module_table::{Definition, count, definition_at};
use oid_run::{run_key, run_of};
use rule::Finding;

// The number of the refusal.
const HELD_TWICE: u8 = 15;

// Whether a definition holds its OID.
fn is_holder(d: Definition) -> bool
    ensures { result ≡ is_holder d }
{
    (d.kind == kind::IDENTITY as usize)
        | ((d.kind == kind::OBJECT_IDENTITY as usize)
            | ((d.kind == kind::OBJECT as usize) | (d.kind == kind::NOTIFICATION as usize)))
}

// Whether two definitions have the same OID.
fn same_oid(numbers: &[u32], a: Definition, b: Definition) -> bool
    ensures { result ≡ same (oid_in numbers.now a) (oid_in numbers.now b) }
{
    oid_run::same(numbers, run_of(numbers, a), run_of(numbers, b))
}

// Whether definition j holds the OID of definition k.
fn holds_oid(definitions: &[usize], numbers: &[u32], k: RecordIndex, j: RecordIndex) -> bool
    ensures { result ≡ holds_oid (definitions_in definitions.now) numbers.now k.0 j.0 }
{
    let d = definition_at(definitions, j);
    is_holder(d) & same_oid(numbers, d, definition_at(definitions, k))
}

// The key of the OID of definition k.
fn oid_key(definitions: &[usize], numbers: &[u32], k: RecordIndex) -> usize
    ensures { result ≡ key_at (definitions_in definitions.now) numbers.now k.0 }
{
    run_key(numbers, run_of(numbers, definition_at(definitions, k)))
}

// Whether some definition before definition k holds its OID, which has this key: the definitions of the key are looked at.
fn is_held_before(
    definitions: &[usize],
    numbers: &[u32],
    k: RecordIndex,
    heads: &[usize; KEYS],
    links: &[usize; ENTRIES],
    key: usize,
) -> bool
    requires index { k.0 < most_entries }
    requires chains { Chained (key_at (definitions_in definitions.now) numbers.now) k.0 heads.now links.now }
    requires key { key ≡ key_at (definitions_in definitions.now) numbers.now k.0 }
    ensures { result ≡ any (holds_oid (definitions_in definitions.now) numbers.now k.0) 0 k.0 }
{
    let mut at = heads[key];
    while 0 < at {
        let j = at - 1;
        if holds_oid(definitions, numbers, k, RecordIndex(j)) {
            return true;
        }
        at = links[j];
    }
    false
}

// Whether definition k holds an OID that an earlier one holds already.
fn is_held_twice(
    definitions: &[usize],
    numbers: &[u32],
    k: RecordIndex,
    heads: &[usize; KEYS],
    links: &[usize; ENTRIES],
    key: usize,
) -> bool
    requires index { k.0 < most_entries }
    requires chains { Chained (key_at (definitions_in definitions.now) numbers.now) k.0 heads.now links.now }
    requires key { key ≡ key_at (definitions_in definitions.now) numbers.now k.0 }
    ensures { result ≡ (held_twice (definitions_in definitions.now) numbers.now).breach k.0 }
{
    if is_holder(definition_at(definitions, k)) {
        return is_held_before(definitions, numbers, k, heads, links, key);
    }
    false
}

// The first definition that holds the OID of definition k; k, where none does before it. It is looked for once a module.
fn earlier_holder(definitions: &[usize], numbers: &[u32], k: RecordIndex) -> RecordIndex
    ensures { result.0 ≡ earlier_holder (definitions_in definitions.now) numbers.now k.0 }
{
    let end = k.0;
    let mut j = 0;
    while j < end {
        if holds_oid(definitions, numbers, k, RecordIndex(j)) {
            return RecordIndex(j);
        }
        j += 1;
    }
    k
}

// What there is to say of definition k, whose OID an earlier one holds.
fn twin_at(definitions: &[usize], numbers: &[u32], k: RecordIndex) -> Finding
    ensures { result ≡ finding (held_twice (definitions_in definitions.now) numbers.now) k.0 }
{
    let own = definition_at(definitions, k);
    let first = definition_at(definitions, earlier_holder(definitions, numbers, k));
    let token = own.name;
    let other = first.name;
    Finding {
        number: HELD_TWICE,
        clause: 0,
        token,
        other,
    }
}

// What the rule says of the definitions. Each one that keeps it is chained by the key of its OID.
pub fn judge_twins(definitions: &[usize], numbers: &[u32]) -> Result<(), Finding>
    requires { length definitions.now ≤ most_definitions * width }
    ensures { result ≡ judge_one (held_twice (definitions_in definitions.now) numbers.now) }
{
    let mut heads = [0usize; KEYS];
    let mut links = [0usize; ENTRIES];
    for k in 0..count(definitions) {
        let key = oid_key(definitions, numbers, RecordIndex(k));
        if is_held_twice(definitions, numbers, RecordIndex(k), &heads, &links, key) {
            return Err(twin_at(definitions, numbers, RecordIndex(k)));
        }
        insert(&mut heads, &mut links, k, key);
    }
    Ok(())
}
