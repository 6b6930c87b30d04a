// Each object's parent. Definitions are chained by the keys of their OIDs, and a parent is found along the chain of the key of the
// OID less its last number, so that no two definitions are compared but those of one key.
ghost use Rattle.std.specs.Prelude.{◌≡◌, ◌-◌, ◌≤◌, ◌<◌, length, take};
ghost use Rattle.chain.specs.Chain.{Chained};
ghost use Rattle.chain.specs.Key.{list_key};
ghost use Rattle.module_table.specs.Definition.{definitions_in, changed};
ghost use Rattle.module_table.specs.Module.{most_definitions, oid_in};
ghost use Rattle.object_tree.specs.Tree.{is_parent, parent_of, with_parent, with_parents_of, parents_added, key_of, ParentTable};

use crate::words::is_object;
use chain::{ENTRIES, KEYS, insert};
use index::RecordIndex;
use module_table::{Definition, MOST_DEFINITIONS, count, definition_at, store};
use oid_run::{Run, is_below, run_key, run_of};

// Whether an object is the parent of another.
fn is_parent(numbers: &[u32], parent: Definition, child: Definition) -> bool
    ensures { result ≡ is_parent numbers.now parent child }
{
    if !is_object(parent) {
        return false;
    }
    if !is_object(child) {
        return false;
    }
    is_below(numbers, run_of(numbers, parent), run_of(numbers, child))
}

// The key of a definition's OID.
fn oid_key(numbers: &[u32], d: Definition) -> usize
    ensures { result ≡ list_key (oid_in numbers.now d) }
{
    run_key(numbers, run_of(numbers, d))
}

// One less, and 0 for 0.
fn less(n: usize) -> usize
    ensures { result ≡ n - 1 }
{
    if n == 0 {
        return 0;
    }
    n - 1
}

// The key of a definition's OID less the last number.
fn parent_key(numbers: &[u32], d: Definition) -> usize
    ensures { result ≡ list_key (take (length (oid_in numbers.now d) - 1) (oid_in numbers.now d)) }
{
    let run = run_of(numbers, d);
    let from = run.from;
    let count = less(run.count);
    run_key(numbers, Run { from, count })
}

// Chains all definitions by the keys of their OIDs.
fn chain_definitions(
    definitions: &[usize],
    numbers: &[u32],
    heads: &mut [usize; KEYS],
    links: &mut [usize; ENTRIES],
)
    requires few { length (definitions_in definitions.now) ≤ most_definitions }
    requires none { Chained (key_of (definitions_in definitions.now) numbers.now) 0 heads.old links.old }
    ensures { Chained (key_of (definitions_in definitions.now) numbers.now) (length (definitions_in definitions.now)) heads.new links.new }
{
    let n = count(definitions);
    let mut k = 0;
    while k < n {
        insert(
            heads,
            links,
            k,
            oid_key(numbers, definition_at(definitions, RecordIndex(k))),
        );
        k += 1;
    }
}

// The number of the parent of definition k: the definitions of its key are looked at, the last of them first.
fn parent_of(
    definitions: &[usize],
    numbers: &[u32],
    k: RecordIndex,
    heads: &[usize; KEYS],
    links: &[usize; ENTRIES],
) -> usize
    requires few { length (definitions_in definitions.now) ≤ most_definitions }
    requires chains { Chained (key_of (definitions_in definitions.now) numbers.now) (length (definitions_in definitions.now)) heads.now links.now }
    ensures { result ≡ parent_of (definitions_in definitions.now) numbers.now k.0 }
{
    let child = definition_at(definitions, k);
    if !is_object(child) {
        return 0;
    }
    let key = parent_key(numbers, child);
    let mut at = heads[key];
    while 0 < at {
        let j = at - 1;
        if is_parent(numbers, definition_at(definitions, RecordIndex(j)), child) {
            return at;
        }
        at = links[j];
    }
    0
}

// The parents of all definitions.
fn find_parents(definitions: &[usize], numbers: &[u32], parents: &mut [usize; MOST_DEFINITIONS])
    requires few { length (definitions_in definitions.now) ≤ most_definitions }
    requires room { length parents.old ≡ most_definitions }
    ensures { ParentTable (definitions_in definitions.now) numbers.now parents.new }
{
    let mut heads = [0usize; KEYS];
    let mut links = [0usize; ENTRIES];
    chain_definitions(definitions, numbers, &mut heads, &mut links);
    let n = count(definitions);
    let mut k = 0;
    while k < n {
        parents[k] = parent_of(definitions, numbers, RecordIndex(k), &heads, &links);
        k += 1;
    }
}

// A definition with this parent.
fn with_parent(mut d: Definition, parent: usize) -> Definition
    ensures { result ≡ with_parent parent d }
{
    d.parent = parent;
    d
}

// Stores the parents of all definitions.
fn store_parents(definitions: &mut [usize], parents: &[usize; MOST_DEFINITIONS])
    requires few { length (definitions_in definitions.old) ≤ most_definitions }
    requires long { length parents.now ≡ most_definitions }
    ensures { definitions_in definitions.new ≡ changed (with_parents_of parents.now) (definitions_in definitions.old) }
{
    let n = count(definitions);
    let mut k = 0;
    while k < n {
        let d = definition_at(definitions, RecordIndex(k));
        store(definitions, RecordIndex(k), with_parent(d, parents[k]));
        k += 1;
    }
}

// Gives each object its parent.
pub fn collect_parents(definitions: &mut [usize], numbers: &[u32])
    requires { length (definitions_in definitions.old) ≤ most_definitions }
    ensures { definitions_in definitions.new ≡ parents_added numbers.now (definitions_in definitions.old) }
{
    let mut parents = [0usize; MOST_DEFINITIONS];
    find_parents(definitions, numbers, &mut parents);
    store_parents(definitions, &parents);
}
