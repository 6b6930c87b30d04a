// Runs of numbers in a buffer, as OIDs are held, compared: whether two are the same, and whether one is the other followed by
// one number. Most pairs differ in their lengths or in their last numbers, so these are looked at first.
ghost use Rattle.std.specs.Prelude.{◌≡◌, ◌+◌, ◌≤◌, eqb, length};
ghost use Rattle.lexicon.specs.Word.{same};
ghost use Rattle.oid_run.specs.Run.{run, is_below};

use index::NumberIndex;

// The numbers of the buffer from an index on, so many of them.
#[derive(Clone, Copy)]
pub struct Run {
    pub from: NumberIndex,
    pub count: usize,
}

// Whether n numbers from a on are those from b on, looked at from the last to the first.
fn agree(numbers: &[u32], a: NumberIndex, b: NumberIndex, n: usize) -> bool
    requires in_a { a.0 + n ≤ length numbers.now }
    requires in_b { b.0 + n ≤ length numbers.now }
    ensures { result ≡ same (run numbers.now a.0 n) (run numbers.now b.0 n) }
{
    let i = a.0;
    let j = b.0;
    let mut k = n;
    while 0 < k {
        k -= 1;
        if numbers[i + k] != numbers[j + k] {
            return false;
        }
    }
    true
}

// Whether two runs are the same, number by number.
pub fn same(numbers: &[u32], a: Run, b: Run) -> bool
    requires in_a { a.from.0 + a.count ≤ length numbers.now }
    requires in_b { b.from.0 + b.count ≤ length numbers.now }
    ensures { result ≡ same (run numbers.now a.from.0 a.count) (run numbers.now b.from.0 b.count) }
{
    if b.count != a.count {
        return false;
    }
    agree(numbers, a.from, b.from, a.count)
}

// Whether b has one number more than a.
fn is_one_longer(a: Run, b: Run) -> bool
    ensures { result ≡ eqb b.count (a.count + 1) }
{
    if b.count == 0 {
        return false;
    }
    b.count - 1 == a.count
}

// Whether b is a followed by one number.
pub fn is_below(numbers: &[u32], a: Run, b: Run) -> bool
    requires in_a { a.from.0 + a.count ≤ length numbers.now }
    requires in_b { b.from.0 + b.count ≤ length numbers.now }
    ensures { result ≡ is_below (run numbers.now a.from.0 a.count) (run numbers.now b.from.0 b.count) }
{
    if !is_one_longer(a, b) {
        return false;
    }
    agree(numbers, a.from, b.from, a.count)
}
