// The ranges of a restriction, those of sizes alike; and refusal 17 on them.
ghost use Rattle.std.specs.Prelude.{◌≡◌, ◌≤◌, length};
ghost use Rattle.rule.specs.Rule.{judge_one};
ghost use Rattle.sub_type.specs.Range.{is_number, starts_range, high_token, exceeds, limit_kind, limit_clause};
ghost use Rattle.sub_type.specs.Refusal.{limit_rule, judge_limit_at};

use crate::Limits;
use crate::number::{class_at, end_in, is_outside, less};
use definition::Span;
use index::TokenIndex;
use rule::{Finding, judge_each};

// Whether a token of this class is a number.
fn is_number(class: u8) -> bool
    ensures { result ≡ is_number class }
{
    (class == terminal::NUMBER) | (class == terminal::NEGATIVE)
}

// Whether a range starts at token i.
pub fn starts_range(classes: &[u8], i: usize) -> bool
    ensures { result ≡ starts_range classes.now i }
{
    is_number(class_at(classes, i)) & !(class_at(classes, less(i, 1)) == terminal::DOTS)
}

// The token of the high of the range that starts at token i.
pub fn high_token(classes: &[u8], i: usize) -> usize
    requires { i ≤ 65536 }
    ensures { result ≡ high_token classes.now i }
{
    if class_at(classes, i + 1) == terminal::DOTS {
        return i + 2;
    }
    i
}

// Whether one of the bounds of the range at token i is outside the limits.
fn exceeds(classes: &[u8], values: &[u32], limits: Limits, i: usize) -> bool
    requires { i ≤ 65536 }
    ensures { result ≡ exceeds classes.now values.now limits i }
{
    let high = high_token(classes, i);
    is_outside(classes, values, limits, i) | is_outside(classes, values, limits, high)
}

// How a range breaks limits.
fn limit_kind(limits: Limits) -> u8
    ensures { result ≡ limit_kind limits }
{
    match limits {
        Limits::Nothing => 1,
        Limits::Integer => 2,
        Limits::Unsigned => 2,
        Limits::Sizes => 2,
    }
}

// The clause of refusal 17 that the range at token i breaks; 0 where it breaks none.
fn limit_clause(classes: &[u8], values: &[u32], limits: Limits, i: usize) -> u8
    requires { i ≤ 65536 }
    ensures { result ≡ limit_clause classes.now values.now limits i }
{
    if starts_range(classes, i) & exceeds(classes, values, limits, i) {
        return limit_kind(limits);
    }
    0
}

// Refusal 17 at token i.
fn judge_limit_at(classes: &[u8], values: &[u32], limits: Limits, i: usize) -> Result<(), Finding>
    requires { i ≤ 65536 }
    ensures { result ≡ judge_limit_at classes.now values.now limits i }
{
    let clause = limit_clause(classes, values, limits, i);
    if 0 < clause {
        return Err(Finding {
            number: 17,
            clause,
            token: TokenIndex(i),
            other: TokenIndex(i),
        });
    }
    Ok(())
}

// Refusal 17 on the ranges of a restriction.
pub fn judge_limits(
    classes: &[u8],
    values: &[u32],
    limits: Limits,
    span: Span,
) -> Result<(), Finding>
    requires { length classes.now ≤ 65536 }
    ensures { result ≡ judge_one (limit_rule classes.now values.now limits span) }
{
    let to = end_in(classes, span);
    judge_each(
        span.from,
        to,
        |i| judge_limit_at(classes, values, limits, i),
    )
}
