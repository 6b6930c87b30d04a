// One range, and two of them against each other. A range is meant by the token that it starts with.
ghost use Rattle.std.specs.Prelude.{◌≡◌, ◌≤◌};
ghost use Rattle.range_list.specs.Misplaced.{is_backward, is_below, shares, is_sharing, first_sharing};

use definition::Span;
use sub_type::{class_at, high_token, is_less, starts_range};

// Whether range i is a pair with low not below high.
pub fn is_backward(classes: &[u8], values: &[u32], i: usize) -> bool
    requires { i ≤ 65536 }
    ensures { result ≡ is_backward classes.now values.now i }
{
    let high = high_token(classes, i);
    (class_at(classes, i + 1) == terminal::DOTS) & !is_less(classes, values, i, high)
}

// Whether range i lies below range j.
pub fn is_below(classes: &[u8], values: &[u32], i: usize, j: usize) -> bool
    requires { i ≤ 65536 }
    ensures { result ≡ is_below classes.now values.now i j }
{
    is_less(classes, values, high_token(classes, i), j)
}

// Whether ranges i and j have a number in common.
fn shares(classes: &[u8], values: &[u32], i: usize, j: usize) -> bool
    requires { (i ≤ 65536) × (j ≤ 65536) }
    ensures { result ≡ shares classes.now values.now i j }
{
    let i_right = !is_below(classes, values, i, i);
    let j_right = !is_below(classes, values, j, j);
    i_right & j_right & !is_below(classes, values, i, j) & !is_below(classes, values, j, i)
}

// Whether at token j a range starts that shares a number with range i.
fn is_sharing(classes: &[u8], values: &[u32], i: usize, j: usize) -> bool
    requires { (i ≤ 65536) × (j ≤ 65536) }
    ensures { result ≡ is_sharing classes.now values.now i j }
{
    starts_range(classes, j) & shares(classes, values, j, i)
}

// The first range that shares a number with that at which the span ends; that one itself where there is none.
pub fn first_sharing(classes: &[u8], values: &[u32], span: Span) -> usize
    requires { span.to ≤ 65536 }
    ensures { result ≡ first_sharing classes.now values.now span.from span.to }
{
    let to = span.to;
    let mut j = span.from;
    while j < to {
        if is_sharing(classes, values, to, j) {
            return j;
        }
        j += 1;
    }
    j
}
