// Numbers of tokens, compared as signed numbers of 64 bits, and what they may be.
ghost use Rattle.std.specs.Prelude.{◌≡◌, ◌-◌, get_or};
ghost use Rattle.std.specs.Int.Signed.{lt_z};
ghost use Rattle.definition.specs.Landmark.{class_at};
ghost use Rattle.sub_type.specs.Number.{number_at, same_number, is_outside, range_limits, size_limits, end_in};

use crate::Limits;
use definition::Span;
use symbol::class;

// The class of token i, and 0 past the last.
pub fn class_at(classes: &[u8], i: usize) -> u8
    ensures { result ≡ class_at classes.now i }
{
    if i < classes.len() {
        return classes[i];
    }
    0
}

// The word at an index, and 0 past the last.
pub fn word_at(words: &[u32], i: usize) -> u32
    ensures { result ≡ get_or words.now i 0 }
{
    if i < words.len() {
        return words[i];
    }
    0
}

// So many less, and 0 where there are not as many.
pub fn less(i: usize, by: usize) -> usize
    ensures { result ≡ i - by }
{
    if i < by {
        return 0;
    }
    i - by
}

// Where a span of tokens ends, but no further than the tokens go.
pub fn end_in(classes: &[u8], span: Span) -> usize
    ensures { result ≡ end_in classes.now span }
{
    let to = span.to;
    if to < classes.len() {
        return to;
    }
    classes.len()
}

// The number of token i.
pub fn number_at(classes: &[u8], values: &[u32], i: usize) -> i64
    ensures { result ≡ number_at classes.now values.now i }
{
    let magnitude = word_at(values, i) as i64;
    if class_at(classes, i) == terminal::NEGATIVE {
        return -magnitude;
    }
    magnitude
}

// Whether the number of token i is below that of token j.
pub fn is_less(classes: &[u8], values: &[u32], i: usize, j: usize) -> bool
    ensures { result ≡ lt_z (number_at classes.now values.now i) (number_at classes.now values.now j) }
{
    let a = number_at(classes, values, i);
    let b = number_at(classes, values, j);
    a < b
}

// Whether tokens i and j have the same number.
pub fn is_same_number(classes: &[u8], values: &[u32], i: usize, j: usize) -> bool
    ensures { result ≡ same_number (number_at classes.now values.now i) (number_at classes.now values.now j) }
{
    let a = number_at(classes, values, i);
    let b = number_at(classes, values, j);
    !(a < b) & !(b < a)
}

// Whether the number of token i is outside the limits.
pub fn is_outside(classes: &[u8], values: &[u32], limits: Limits, i: usize) -> bool
    ensures { result ≡ is_outside limits (number_at classes.now values.now i) }
{
    let value = number_at(classes, values, i);
    match limits {
        Limits::Nothing => true,
        Limits::Integer => (value < -2147483648) | (2147483647 < value),
        Limits::Unsigned => (value < 0) | (4294967295 < value),
        Limits::Sizes => (value < 0) | (65535 < value),
    }
}

// What ranges may hold on a class.
pub fn range_limits(class: usize) -> Limits
    ensures { result ≡ range_limits class }
{
    if class == class::INTEGER as usize {
        return Limits::Integer;
    }
    if class == class::GAUGE32 as usize {
        return Limits::Unsigned;
    }
    if class == class::UNSIGNED32 as usize {
        return Limits::Unsigned;
    }
    Limits::Nothing
}

// What sizes may hold on a class.
pub fn size_limits(class: usize) -> Limits
    ensures { result ≡ size_limits class }
{
    if class == class::OCTETS as usize {
        return Limits::Sizes;
    }
    Limits::Nothing
}
