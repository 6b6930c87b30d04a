// The one loop that searches for a definition at fault by itself, whichever rule is checked.
ghost use Rattle.std.specs.Prelude.{◌≡◌, length};
ghost use Rattle.index.specs.First.{first};
ghost use Rattle.module_table.specs.Definition.{definitions_in};
ghost use Rattle.access_check.specs.Found.{Granted, check_clause, is_faulty};

use crate::Check;
use crate::access::own_clause;
use crate::notification::notification_clause;
use index::RecordIndex;
use module_table::{count, definition_at};

// The clause that puts definition k at fault by itself, for a check; 0 where none does.
pub fn clause_at(
    values: &[u32],
    definitions: &[usize],
    numbers: &[u32],
    check: Check,
    k: RecordIndex,
) -> u8
    requires { Granted (definitions_in definitions.now) numbers.now check }
    ensures { result ≡ check_clause (definitions_in definitions.now) values.now numbers.now check k.0 }
{
    match check {
        Check::Access => own_clause(definitions, definition_at(definitions, k)),
        Check::Notification => notification_clause(values, definitions, numbers, k),
    }
}

// The first definition that is at fault so; the number of definitions where none is.
pub fn first_fault(values: &[u32], definitions: &[usize], numbers: &[u32], check: Check) -> usize
    requires { Granted (definitions_in definitions.now) numbers.now check }
    ensures { result ≡ first (is_faulty (definitions_in definitions.now) values.now numbers.now check) 0 (length (definitions_in definitions.now)) }
{
    let n = count(definitions);
    let mut k = 0;
    while k < n {
        if clause_at(values, definitions, numbers, check, RecordIndex(k)) != 0 {
            return k;
        }
        k += 1;
    }
    k
}
