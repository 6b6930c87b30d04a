// Ranges that each lie above all before them, or below all: they share nothing, and two comparisons tell it.
ghost use Rattle.std.specs.Prelude.{◌≤◌, ◌<◌};
ghost use Rattle.index.specs.First.{first};
ghost use Rattle.range_list.specs.Misplaced.{is_misplaced};
ghost use Rattle.range_list.specs.Spread.{Spread, Widened};

use crate::range::{is_backward, is_below};
use definition::Span;
use sub_type::starts_range;

// The lowest and the highest of some ranges.
#[derive(Clone, Copy)]
pub struct Extremes {
    pub lowest: usize,
    pub highest: usize,
}

// The extremes of the ranges in the span, which are given, with the range at its end, if one starts there and shares no number with them.
// None where nothing can be said: its pair is wrong, or it lies neither above all of them nor below all.
fn widen(classes: &[u8], values: &[u32], span: Span, extremes: Extremes) -> Option<Extremes>
    requires spread { Spread classes.now values.now span.from span.to extremes.lowest extremes.highest }
    requires few { span.to < 65536 }
    ensures { Widened classes.now values.now span.from span.to result }
{
    let token = span.to;
    if !starts_range(classes, token) {
        return Some(extremes);
    }
    if is_backward(classes, values, token) {
        return None;
    }
    let lowest = extremes.lowest;
    let highest = extremes.highest;
    if is_below(classes, values, token, lowest) {
        return Some(Extremes {
            lowest: token,
            highest,
        });
    }
    if is_below(classes, values, highest, token) {
        return Some(Extremes {
            lowest,
            highest: token,
        });
    }
    None
}

// A token before which no range is misplaced: the first of which nothing can be said, or the end of the span.
pub fn first_between(classes: &[u8], values: &[u32], span: Span) -> usize
    requires { span.to ≤ 65536 }
    ensures { (span.from ≤ result) × (result ≤ first (is_misplaced classes.now values.now span.from) span.from span.to) }
{
    let from = span.from;
    let to = span.to;
    if to <= from {
        return from;
    }
    if !starts_range(classes, from) | is_backward(classes, values, from) {
        return from;
    }
    let mut lowest = from;
    let mut highest = from;
    let mut token = from + 1;
    while token < to {
        let before = Extremes { lowest, highest };
        let Some(extremes) = widen(classes, values, Span { from, to: token }, before) else {
            return token;
        };
        lowest = extremes.lowest;
        highest = extremes.highest;
        token += 1;
    }
    token
}
