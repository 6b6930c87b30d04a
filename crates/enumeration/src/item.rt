// The items of an enumeration: refusal 18 on them. Labels and numbers are in trees by their bits, so that an item is compared with no
// more of those before it than a label or a number has bits.
ghost use Rattle.std.specs.Prelude.{◌≡◌, true, ◌-◌, ◌<◌, ◌≤◌, ltb, length};
ghost use Rattle.index.specs.Choice.{when◌then◌else◌};
ghost use Rattle.index.specs.First.{first, any};
ghost use Rattle.rule.specs.Rule.{judge_one};
ghost use Rattle.definition.specs.Members.{is_name};
ghost use Rattle.enumeration.specs.Item.{spelling_in, has_label, has_number, first_label, first_number, label_again, number_misfit};
ghost use Rattle.enumeration.specs.Tree.{label_turns, number_turns, Ready, Answered, Clear};
ghost use Rattle.enumeration.specs.Refusal.{item_rule};

use crate::Enumeration;
use crate::label::{has_label, lesser, part_of};
use bit_tree::{bit, child, hang, name_bit};
use definition::{Span, is_lower};
use index::TokenIndex;
use rule::Finding;
use sub_type::{Limits, class_at, end_in, is_outside, is_same_number, less, word_at};
use token::LONGEST_TEXT;

// How many tokens a tree has room for, a word for each. Most enumerations are short, and a short tree is sooner cleared.
const SHORT_SPAN: usize = 256;

const LONG_SPAN: usize = LONGEST_TEXT;

// The token of an item's label, and the first token of its enumeration.
#[derive(Clone, Copy)]
pub struct Entry {
    pub base: usize,
    pub token: usize,
}

// Whether an earlier item has the label of this one; else it is put into the tree.
fn place_label(
    text: &[u8],
    starts: &[u32],
    ends: &[u32],
    classes: &[u8],
    links: &mut [u32],
    item: Entry,
) -> bool
    requires tree { Ready classes.now (label_turns (spelling_in text.now starts.now ends.now)) item.base item.token links.old }
    requires room { (item.token - item.base < length links.old) × (item.token < 65536) }
    requires label { is_name classes.now item.token ≡ true }
    ensures as_long { length links.new ≡ length links.old }
    ensures answer { Answered (any (has_label (spelling_in text.now starts.now ends.now) classes.now item.token) item.base item.token) classes.now (label_turns (spelling_in text.now starts.now ends.now)) item.base item.token links.new result }
{
    let base = item.base;
    let token = item.token;
    let part = part_of(text, starts, ends, token);
    let start = part.start;
    let end = part.end;
    let mut at = lesser(token - base, 1);
    let mut d = 0;
    while 0 < at {
        let j = at - 1;
        if has_label(text, starts, ends, classes, token, base + j) {
            return true;
        }
        let side = name_bit(text, start, end, d);
        let next = child(links, j, side);
        if next == 0 {
            hang(links, j, side, token - base);
            return false;
        }
        at = next + 1;
        d += 1;
    }
    false
}

// Whether a token is a label that an earlier item has; else it is put into the tree, if it is a label.
fn admit_label(
    text: &[u8],
    starts: &[u32],
    ends: &[u32],
    classes: &[u8],
    links: &mut [u32],
    item: Entry,
) -> bool
    requires tree { Ready classes.now (label_turns (spelling_in text.now starts.now ends.now)) item.base item.token links.old }
    requires room { (item.token - item.base < length links.old) × (item.token < 65536) }
    ensures as_long { length links.new ≡ length links.old }
    ensures answer { Answered (label_again (spelling_in text.now starts.now ends.now) classes.now item.base item.token) classes.now (label_turns (spelling_in text.now starts.now ends.now)) item.base item.token links.new result }
{
    if is_lower(class_at(classes, item.token)) {
        return place_label(text, starts, ends, classes, links, item);
    }
    false
}

// The first label that is there again, in a span that the lent words have room for.
fn search_labels(
    text: &[u8],
    starts: &[u32],
    ends: &[u32],
    classes: &[u8],
    span: Span,
    links: &mut [u32],
) -> usize
    requires few { span.to ≤ 65536 }
    requires links { Clear span.from span.to links.old }
    ensures { result ≡ first (label_again (spelling_in text.now starts.now ends.now) classes.now span.from) span.from span.to }
{
    let base = span.from;
    let to = span.to;
    let mut token = base;
    while token < to {
        if admit_label(text, starts, ends, classes, links, Entry { base, token }) {
            return token;
        }
        token += 1;
    }
    token
}

// The first label that is there again; the end of the span where there is none.
fn first_label_again(text: &[u8], starts: &[u32], ends: &[u32], classes: &[u8], span: Span) -> usize
    requires { span.to ≤ 65536 }
    ensures { result ≡ first (label_again (spelling_in text.now starts.now ends.now) classes.now span.from) span.from span.to }
{
    if less(span.to, span.from) <= SHORT_SPAN {
        let mut links = [0u32; SHORT_SPAN];
        return search_labels(text, starts, ends, classes, span, &mut links);
    }
    let mut links = [0u32; LONG_SPAN];
    search_labels(text, starts, ends, classes, span, &mut links)
}

// Whether token j is the label of an item with the number of that of token i.
fn has_number(classes: &[u8], values: &[u32], i: usize, j: usize) -> bool
    requires { (i ≤ 65536) × (j ≤ 65536) }
    ensures { result ≡ has_number classes.now values.now i j }
{
    is_lower(class_at(classes, j)) & is_same_number(classes, values, j + 2, i + 2)
}

// Whether an earlier item has the number of this one; else it is put into the tree.
fn place_number(classes: &[u8], values: &[u32], links: &mut [u32], item: Entry) -> bool
    requires tree { Ready classes.now (number_turns values.now) item.base item.token links.old }
    requires room { (item.token - item.base < length links.old) × (item.token < 65536) }
    requires label { is_name classes.now item.token ≡ true }
    ensures as_long { length links.new ≡ length links.old }
    ensures answer { Answered (any (has_number classes.now values.now item.token) item.base item.token) classes.now (number_turns values.now) item.base item.token links.new result }
{
    let base = item.base;
    let token = item.token;
    let magnitude = word_at(values, token + 2);
    let mut at = lesser(token - base, 1);
    let mut d = 0;
    while 0 < at {
        let j = at - 1;
        if has_number(classes, values, token, base + j) {
            return true;
        }
        let side = bit(magnitude, d);
        let next = child(links, j, side);
        if next == 0 {
            hang(links, j, side, token - base);
            return false;
        }
        at = next + 1;
        d += 1;
    }
    false
}

// Whether a token is the label of an item whose number an earlier item has, or is outside the limits; else it is put into the tree, if
// it is a label.
fn admit_number(
    classes: &[u8],
    values: &[u32],
    limits: Limits,
    links: &mut [u32],
    item: Entry,
) -> bool
    requires tree { Ready classes.now (number_turns values.now) item.base item.token links.old }
    requires room { (item.token - item.base < length links.old) × (item.token < 65536) }
    ensures as_long { length links.new ≡ length links.old }
    ensures answer { Answered (number_misfit classes.now values.now limits item.base item.token) classes.now (number_turns values.now) item.base item.token links.new result }
{
    if is_lower(class_at(classes, item.token)) {
        if is_outside(classes, values, limits, item.token + 2) {
            return true;
        }
        return place_number(classes, values, links, item);
    }
    false
}

// The first item whose number is there again or outside the limits, in a span that the lent words have room for.
fn search_numbers(
    classes: &[u8],
    values: &[u32],
    limits: Limits,
    span: Span,
    links: &mut [u32],
) -> usize
    requires few { span.to ≤ 65536 }
    requires links { Clear span.from span.to links.old }
    ensures { result ≡ first (number_misfit classes.now values.now limits span.from) span.from span.to }
{
    let base = span.from;
    let to = span.to;
    let mut token = base;
    while token < to {
        if admit_number(classes, values, limits, links, Entry { base, token }) {
            return token;
        }
        token += 1;
    }
    token
}

// The first item whose number is there again or outside the limits; the end of the span where there is none.
fn first_number_misfit(classes: &[u8], values: &[u32], limits: Limits, span: Span) -> usize
    requires { span.to ≤ 65536 }
    ensures { result ≡ first (number_misfit classes.now values.now limits span.from) span.from span.to }
{
    if less(span.to, span.from) <= SHORT_SPAN {
        let mut links = [0u32; SHORT_SPAN];
        return search_numbers(classes, values, limits, span, &mut links);
    }
    let mut links = [0u32; LONG_SPAN];
    search_numbers(classes, values, limits, span, &mut links)
}

// The first label with the spelling of the token at which the span ends; that token where there is none.
fn first_same_label(text: &[u8], starts: &[u32], ends: &[u32], classes: &[u8], span: Span) -> usize
    ensures { result ≡ first_label (spelling_in text.now starts.now ends.now) classes.now span.from span.to }
{
    let to = span.to;
    let mut j = span.from;
    while j < to {
        if has_label(text, starts, ends, classes, to, j) {
            return j;
        }
        j += 1;
    }
    j
}

// The first label of an item with the number of that at whose label the span ends; that label where there is none.
fn first_same_number(classes: &[u8], values: &[u32], span: Span) -> usize
    requires { span.to ≤ 65536 }
    ensures { result ≡ first_number classes.now values.now span.from span.to }
{
    let to = span.to;
    let mut j = span.from;
    while j < to {
        if has_number(classes, values, to, j) {
            return j;
        }
        j += 1;
    }
    j
}

// The clause of refusal 18 that the item of a token breaks, by the first items that have its label and its number: one of them is
// earlier, or else the number is outside.
fn item_clause(label: usize, number: usize, token: usize) -> u8
    ensures { result ≡ (when ltb label token then 1 else when ltb number token then 2 else 3) }
{
    if label < token {
        return 1;
    }
    if number < token {
        return 2;
    }
    3
}

// What it stands against, by the same two.
fn item_other(label: usize, number: usize, token: usize) -> usize
    ensures { result ≡ (when ltb label token then label else number) }
{
    if label < token {
        return label;
    }
    number
}

// Refusal 18 on the items of an enumeration.
pub fn judge_items(
    text: &[u8],
    starts: &[u32],
    ends: &[u32],
    classes: &[u8],
    values: &[u32],
    items: Enumeration,
) -> Result<(), Finding>
    requires { length classes.now ≤ 65536 }
    ensures { result ≡ judge_one (item_rule (spelling_in text.now starts.now ends.now) classes.now values.now items.limits items.span) }
{
    let span = items.span;
    let limits = items.limits;
    let from = span.from;
    let to = end_in(classes, span);
    let label = first_label_again(text, starts, ends, classes, Span { from, to });
    let number = first_number_misfit(classes, values, limits, Span { from, to });
    let token = lesser(label, number);
    if token < to {
        let before = Span { from, to: token };
        let same_label = first_same_label(text, starts, ends, classes, before);
        let same_number = first_same_number(classes, values, before);
        return Err(Finding {
            number: 18,
            clause: item_clause(same_label, same_number, token),
            token: TokenIndex(token),
            other: TokenIndex(item_other(same_label, same_number, token)),
        });
    }
    Ok(())
}
