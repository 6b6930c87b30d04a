// Ranges in rising order, for lists that neither rise nor fall: a range is compared with no more of those before it than halving asks for.
ghost use Rattle.std.specs.Prelude.{◌≡◌, not, ◌||◌, ◌-◌, ◌≤◌, ◌<◌, ltb, length};
ghost use Rattle.index.specs.First.{first};
ghost use Rattle.range_list.specs.Misplaced.{is_below, is_misplaced};
ghost use Rattle.range_list.specs.Sorted.{range_at, Rising, Gathered, Belongs, Inserted, Admitted};

use crate::range::{is_backward, is_below};
use definition::Span;
use index::wide_u16;
use sub_type::{less, starts_range};
use token::LONGEST_TEXT;

// How many tokens there is room for, an entry for each. Most lists are short, and a short table is sooner cleared. An entry has two bytes,
// which a token's index fits, so that half as much is moved.
const SHORT_SPAN: usize = 256;

const LONG_SPAN: usize = LONGEST_TEXT;

// Where a range belongs: the first of those in order that does not lie below it, or their end.
fn place_of(classes: &[u8], values: &[u32], order: &[u16], count: usize, token: usize) -> usize
    requires rising { Rising classes.now values.now count order.now }
    requires room { (count ≤ 65536) × (count ≤ length order.now) }
    ensures { Belongs classes.now values.now count order.now token result }
{
    let mut low = 0;
    let mut high = count;
    while low < high {
        let middle = low + (high - low) / 2;
        if is_below(classes, values, wide_u16(order[middle]), token) {
            low = middle + 1;
        } else {
            high = middle;
        }
    }
    low
}

// Whether the range where another belongs, if there is one, lies above that.
fn is_free(
    classes: &[u8],
    values: &[u32],
    order: &[u16],
    count: usize,
    at: usize,
    token: usize,
) -> bool
    requires room { (token ≤ 65536) × (count ≤ length order.now) }
    ensures { result ≡ (not (ltb at count) || is_below classes.now values.now token (range_at order.now at)) }
{
    if at < count {
        return is_below(classes, values, token, wide_u16(order[at]));
    }
    true
}

// Puts a range in, and moves those from there on by one.
fn insert(order: &mut [u16], count: usize, at: usize, token: usize)
    requires room { (at ≤ count) × (count < length order.old) × (token < 65536) }
    ensures as_long { length order.new ≡ length order.old }
    ensures inserted { Inserted count at token order.old order.new }
{
    let mut k = count;
    while at < k {
        order[k] = order[k - 1];
        k -= 1;
    }
    order[at] = token as u16;
}

// Puts the range at the end of the span, if one starts there, among those in the span, which are in order: so many there are with it.
// None where it is misplaced.
fn admit(
    classes: &[u8],
    values: &[u32],
    order: &mut [u16],
    count: usize,
    span: Span,
) -> Option<usize>
    requires gathered { Gathered classes.now values.now span.from span.to count order.old }
    requires room { (count < length order.old) × (span.to < 65536) }
    ensures as_long { length order.new ≡ length order.old }
    ensures answer { Admitted classes.now values.now span.from span.to order.new result }
{
    let token = span.to;
    if !starts_range(classes, token) {
        return Some(count);
    }
    if is_backward(classes, values, token) {
        return None;
    }
    let at = place_of(classes, values, order, count, token);
    if !is_free(classes, values, order, count, at, token) {
        return None;
    }
    insert(order, count, at, token);
    Some(count + 1)
}

// The first range that is misplaced, in a span that the lent entries have room for.
fn search_in(classes: &[u8], values: &[u32], span: Span, order: &mut [u16]) -> usize
    requires few { span.to ≤ 65536 }
    requires room { span.to - span.from ≤ length order.old }
    ensures { result ≡ first (is_misplaced classes.now values.now span.from) span.from span.to }
{
    let from = span.from;
    let to = span.to;
    let mut count = 0;
    let mut token = from;
    while token < to {
        let Some(with) = admit(classes, values, order, count, Span { from, to: token }) else {
            return token;
        };
        count = with;
        token += 1;
    }
    token
}

// The first range that is misplaced; the end of the span where none is.
pub fn search_sorted(classes: &[u8], values: &[u32], span: Span) -> usize
    requires { span.to ≤ 65536 }
    ensures { result ≡ first (is_misplaced classes.now values.now span.from) span.from span.to }
{
    if less(span.to, span.from) <= SHORT_SPAN {
        let mut order = [0u16; SHORT_SPAN];
        return search_in(classes, values, span, &mut order);
    }
    let mut order = [0u16; LONG_SPAN];
    search_in(classes, values, span, &mut order)
}
