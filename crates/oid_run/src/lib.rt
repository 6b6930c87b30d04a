// The OID of a definition as a run of the number buffer: whatever the definition's words say, the run lies inside; the key of a run,
// by which definitions are chained; and how two runs stand to each other.
#![tactic(auto)]

ghost use Rattle.std.specs.Prelude.{◌≡◌, cond, ◌+◌, ◌≤◌, ltb, length};
ghost use Rattle.chain.specs.Key.{list_key};
ghost use Rattle.oid_run.specs.Run.{run};
ghost use Rattle.oid_run.specs.Held.{Held};

mod list;

use index::{NumberIndex, wide};
pub use list::{Run, is_below, same};
use module_table::Definition;

// The lesser of two numbers.
fn lesser(a: usize, b: usize) -> usize
    ensures { result ≡ cond (ltb b a) b a }
{
    if b < a {
        return b;
    }
    a
}

// The run of a definition's sub-identifiers: what the buffer has of them.
pub fn run_of(numbers: &[u32], d: Definition) -> Run
    ensures { Held numbers.now d result }
{
    let start = d.start;
    let from = lesser(start.0, numbers.len());
    let count = lesser(d.count, numbers.len() - from);
    Run {
        from: NumberIndex(from),
        count,
    }
}

// The key of the numbers of a run.
pub fn run_key(numbers: &[u32], a: Run) -> usize
    requires { a.from.0 + a.count ≤ length numbers.now }
    ensures { result ≡ list_key (run numbers.now a.from.0 a.count) }
{
    let size = a.count;
    if size < 3 {
        return size;
    }
    let from = a.from;
    let end = from.0 + size;
    chain::key(
        size,
        wide(numbers[end - 3]),
        wide(numbers[end - 2]),
        wide(numbers[end - 1]),
    )
}
