// The clauses on the names of SEQUENCE types and of AUGMENTS.
ghost use Rattle.std.specs.Prelude.{◌≡◌, ◌≤◌, ◌<◌, length};
ghost use Rattle.module_table.specs.Definition.{definitions_in};
ghost use Rattle.module_table.specs.Module.{most_definitions};
ghost use Rattle.sequence_list.specs.Held.{VerdictTable, ListedTable};
ghost use Rattle.clause_table.specs.Clause.{unfounded_augments};
ghost use Rattle.clause_table.specs.Held.{list_clause, name_clause, ClauseTable};

use index::{RecordIndex, TokenIndex};
use module_table::{Definition, MOST_DEFINITIONS, count, definition_at};
use object_tree::{is_row, number_at, numbered};
use sequence_list::{ALIKE, MIXED, PLACES, REPEATING, collect_listed, collect_verdicts, type_of};

// The clause on the names of the SEQUENCE type of a row of this number, by the verdict on its list and the parent noted of it.
fn list_clause(verdict: u8, parent: usize, number: usize) -> u8
    ensures { result ≡ list_clause verdict parent number }
{
    if verdict == REPEATING {
        return 5;
    }
    if (verdict == MIXED) | ((verdict == ALIKE) & (parent != number)) {
        return 6;
    }
    0
}

// Whether a definition has AUGMENTS that doesn't name a row with INDEX.
fn is_unfounded(values: &[u32], definitions: &[usize], d: Definition) -> bool
    ensures { result ≡ unfounded_augments (definitions_in definitions.now) values.now d }
{
    let list = d.augments;
    let from = list.from;
    if !(from < list.to) {
        return false;
    }
    let named = numbered(definitions, number_at(values, TokenIndex(from)));
    let index = named.index;
    !(is_row(named) & (index.from < index.to))
}

// The first clause on names that puts definition k at fault; 0 where none does.
fn name_clause(
    values: &[u32],
    definitions: &[usize],
    verdicts: &[u8; PLACES],
    parents: &[usize; PLACES],
    listed: &[u8; PLACES],
    k: RecordIndex,
) -> u8
    requires verdicts { VerdictTable (definitions_in definitions.now) values.now verdicts.now parents.now }
    requires listed { ListedTable (definitions_in definitions.now) values.now listed.now }
    requires few { k.0 < most_definitions }
    ensures { result ≡ name_clause (definitions_in definitions.now) values.now k.0 }
{
    let d = definition_at(definitions, k);
    let number = k.0 + 1;
    let sequence = type_of(d);
    let clause = list_clause(verdicts[sequence], parents[sequence], number);
    if is_row(d) & (clause != 0) {
        return clause;
    }
    if is_row(numbered(definitions, d.parent)) & (listed[number] != 1) {
        return 7;
    }
    if is_unfounded(values, definitions, d) {
        return 8;
    }
    0
}

// The clauses of all definitions.
pub fn collect_name_clauses(
    values: &[u32],
    definitions: &[usize],
    clauses: &mut [u8; MOST_DEFINITIONS],
)
    requires few { length (definitions_in definitions.now) ≤ most_definitions }
    requires room { length clauses.old ≡ most_definitions }
    ensures { ClauseTable (name_clause (definitions_in definitions.now) values.now) (length (definitions_in definitions.now)) clauses.new }
{
    let mut verdicts = [0u8; PLACES];
    let mut parents = [0usize; PLACES];
    collect_verdicts(values, definitions, &mut verdicts, &mut parents);
    let mut listed = [0u8; PLACES];
    collect_listed(values, definitions, &mut listed);
    let n = count(definitions);
    let mut k = 0;
    while k < n {
        clauses[k] = name_clause(
            values,
            definitions,
            &verdicts,
            &parents,
            &listed,
            RecordIndex(k),
        );
        k += 1;
    }
}
