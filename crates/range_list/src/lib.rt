// The ranges of a restriction against each other: refusal 16. They may stand in any order, but a pair's low is below its high, and no number
// lies in two ranges.
#![tactic(auto)]

mod range;
mod sorted;
mod spread;

ghost use Rattle.std.specs.Prelude.{◌≡◌, ◌≤◌, length};
ghost use Rattle.index.specs.First.{first};
ghost use Rattle.rule.specs.Rule.{finding, judge_one};
ghost use Rattle.range_list.specs.Misplaced.{is_misplaced};
ghost use Rattle.range_list.specs.Refusal.{misplaced_range};

use definition::Span;
use index::TokenIndex;
use range::{first_sharing, is_backward};
use rule::Finding;
use sorted::search_sorted;
use spread::first_between;
use sub_type::end_in;

// The first range that is misplaced; the end of the span where none is. Most lists rise or fall, and that is seen without a table.
fn first_misplaced(classes: &[u8], values: &[u32], span: Span) -> usize
    requires { span.to ≤ 65536 }
    ensures { result ≡ first (is_misplaced classes.now values.now span.from) span.from span.to }
{
    let clear = first_between(classes, values, span);
    if span.to <= clear {
        return clear;
    }
    search_sorted(classes, values, span)
}

// What there is to say of the range at which the span ends, which is misplaced.
fn misplaced_finding(classes: &[u8], values: &[u32], span: Span) -> Finding
    requires { span.to ≤ 65536 }
    ensures { result ≡ finding (misplaced_range classes.now values.now span) span.to }
{
    let token = span.to;
    if is_backward(classes, values, token) {
        return Finding {
            number: 16,
            clause: 1,
            token: TokenIndex(token),
            other: TokenIndex(token),
        };
    }
    Finding {
        number: 16,
        clause: 2,
        token: TokenIndex(token),
        other: TokenIndex(first_sharing(classes, values, span)),
    }
}

// Refusal 16 on the ranges of a restriction.
pub fn judge_misplaced(classes: &[u8], values: &[u32], span: Span) -> Result<(), Finding>
    requires { length classes.now ≤ 65536 }
    ensures { result ≡ judge_one (misplaced_range classes.now values.now span) }
{
    let from = span.from;
    let to = end_in(classes, span);
    let token = first_misplaced(classes, values, Span { from, to });
    if token < to {
        return Err(misplaced_finding(classes, values, Span { from, to: token }));
    }
    Ok(())
}
