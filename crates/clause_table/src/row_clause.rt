// The clauses on tables, rows and their INDEX.
ghost use Rattle.std.specs.Prelude.{◌≡◌, ◌+◌, ◌≤◌, ◌<◌, length};
ghost use Rattle.module_table.specs.Definition.{definitions_in};
ghost use Rattle.module_table.specs.Module.{most_definitions, oid_in};
ghost use Rattle.clause_table.specs.Clause.{ends_in_one, has_its_row, rowless_table, is_row_in, stray_row};
ghost use Rattle.clause_table.specs.Held.{RowsFrom, index_clause, row_clause, ClauseTable};

use index::RecordIndex;
use module_table::{Definition, MOST_DEFINITIONS, count, definition_at};
use object_tree::{is_indexed, is_row, is_table, numbered};
use oid_run::run_of;
use sequence_list::{PLACES, type_of};

// Notes how many rows each SEQUENCE type has, and the first of them: from the last definition to the first.
fn collect_rows(definitions: &[usize], counts: &mut [usize; PLACES], firsts: &mut [usize; PLACES])
    requires few { length (definitions_in definitions.now) ≤ most_definitions }
    requires none { RowsFrom (definitions_in definitions.now) (length (definitions_in definitions.now)) counts.old firsts.old }
    ensures { RowsFrom (definitions_in definitions.now) 0 counts.new firsts.new }
{
    let mut k = count(definitions);
    while 0 < k {
        k -= 1;
        let d = definition_at(definitions, RecordIndex(k));
        if is_row(d) {
            let number = type_of(d);
            counts[number] += 1;
            firsts[number] = k;
        }
    }
}

// Whether the last number of an object's OID is 1.
fn ends_in_one(numbers: &[u32], d: Definition) -> bool
    ensures { result ≡ ends_in_one (oid_in numbers.now d) }
{
    let run = run_of(numbers, d);
    let size = run.count;
    if size == 0 {
        return false;
    }
    let from = run.from;
    let at = from.0 + (size - 1);
    numbers[at] == 1
}

// Whether the SEQUENCE type of table k has exactly one row, at the table's OID followed by 1.
fn has_its_row(
    definitions: &[usize],
    numbers: &[u32],
    k: RecordIndex,
    counts: &[usize; PLACES],
    firsts: &[usize; PLACES],
) -> bool
    requires rows { RowsFrom (definitions_in definitions.now) 0 counts.now firsts.now }
    requires few { k.0 < most_definitions }
    ensures { result ≡ has_its_row (definitions_in definitions.now) numbers.now k.0 }
{
    let number = type_of(definition_at(definitions, k));
    if counts[number] != 1 {
        return false;
    }
    let row = definition_at(definitions, RecordIndex(firsts[number]));
    if row.parent != k.0 + 1 {
        return false;
    }
    ends_in_one(numbers, row)
}

// Whether a row is at the OID, followed by 1, of this table of its type.
fn is_row_in(numbers: &[u32], parent: Definition, d: Definition) -> bool
    ensures { result ≡ is_row_in numbers.now parent d }
{
    if !is_table(parent) {
        return false;
    }
    if type_of(parent) != type_of(d) {
        return false;
    }
    ends_in_one(numbers, d)
}

// Whether definition k is a table without its row.
fn is_rowless(
    definitions: &[usize],
    numbers: &[u32],
    k: RecordIndex,
    counts: &[usize; PLACES],
    firsts: &[usize; PLACES],
) -> bool
    requires rows { RowsFrom (definitions_in definitions.now) 0 counts.now firsts.now }
    requires few { k.0 < most_definitions }
    ensures { result ≡ rowless_table (definitions_in definitions.now) numbers.now k.0 }
{
    if !is_table(definition_at(definitions, k)) {
        return false;
    }
    !has_its_row(definitions, numbers, k, counts, firsts)
}

// Whether definition k is a row without its table.
fn is_stray(definitions: &[usize], numbers: &[u32], k: RecordIndex) -> bool
    ensures { result ≡ stray_row (definitions_in definitions.now) numbers.now k.0 }
{
    let d = definition_at(definitions, k);
    if !is_row(d) {
        return false;
    }
    !is_row_in(numbers, numbered(definitions, d.parent), d)
}

// The clause on INDEX and AUGMENTS that puts an object at fault; 0 where none does.
fn index_clause(d: Definition) -> u8
    ensures { result ≡ index_clause d }
{
    if is_row(d) & !is_indexed(d) {
        return 3;
    }
    if !is_row(d) & is_indexed(d) {
        return 4;
    }
    0
}

// The first clause on tables, rows and their INDEX that puts definition k at fault; 0 where none does.
fn row_clause(
    definitions: &[usize],
    numbers: &[u32],
    k: RecordIndex,
    counts: &[usize; PLACES],
    firsts: &[usize; PLACES],
) -> u8
    requires rows { RowsFrom (definitions_in definitions.now) 0 counts.now firsts.now }
    requires few { k.0 < most_definitions }
    ensures { result ≡ row_clause (definitions_in definitions.now) numbers.now k.0 }
{
    if is_rowless(definitions, numbers, k, counts, firsts) {
        return 1;
    }
    if is_stray(definitions, numbers, k) {
        return 2;
    }
    index_clause(definition_at(definitions, k))
}

// The clauses of all definitions.
pub fn collect_row_clauses(
    definitions: &[usize],
    numbers: &[u32],
    clauses: &mut [u8; MOST_DEFINITIONS],
)
    requires few { length (definitions_in definitions.now) ≤ most_definitions }
    requires room { length clauses.old ≡ most_definitions }
    ensures { ClauseTable (row_clause (definitions_in definitions.now) numbers.now) (length (definitions_in definitions.now)) clauses.new }
{
    let mut counts = [0usize; PLACES];
    let mut firsts = [0usize; PLACES];
    collect_rows(definitions, &mut counts, &mut firsts);
    let n = count(definitions);
    let mut k = 0;
    while k < n {
        clauses[k] = row_clause(definitions, numbers, RecordIndex(k), &counts, &firsts);
        k += 1;
    }
}
