// How far a run of bytes goes: the bytes that belong to it are passed, one after the other, up to the first that doesn't.
ghost use Rattle.std.specs.Prelude.{◌≡◌, ◌+◌, ◌-◌, ◌*◌, ◌≤◌, ◌<◌, length, get_or, take, drop};
ghost use Rattle.lexicon.specs.Byte.{class_of, classed, digit_byte, name_byte, comment_byte};
ghost use Rattle.piece.specs.Decimal.{decimal, too_large, capped};
ghost use Rattle.piece.specs.Piece.{span};
ghost use Rattle.piece.specs.Run.{EndsRun};

use lexicon::byte::{CAPITAL, DIGIT, HYPHEN, NEWLINE, class_of};

// The byte at a place of the text, or 0 at its end.
pub fn byte_at(text: &[u8], at: usize) -> u8
    ensures { result ≡ get_or text.now at 0 }
{
    text.get(at).copied().unwrap_or(0)
}

// The class of the byte at a place of the text; at its end that of byte 0, which no token and no gap has.
pub fn class_at(text: &[u8], at: usize) -> u8
    ensures { result ≡ class_of (get_or text.now at 0) }
{
    class_of(byte_at(text, at))
}

// Whether the byte's class lies from low to high.
pub fn in_classes(text: &[u8], at: usize, low: u8, high: u8) -> bool
    requires { at < length text.now }
    ensures { result ≡ classed low high (get_or text.now at 0) (get_or text.now (at + 1) 0) }
{
    (low..=high).contains(&class_of(text[at]))
}

// Whether the byte is a letter, a digit, or a hyphen that a letter or digit follows.
pub fn in_name(text: &[u8], at: usize) -> bool
    requires { at < length text.now }
    ensures { result ≡ name_byte (get_or text.now at 0) (get_or text.now (at + 1) 0) }
{
    let class = class_of(text[at]);
    class <= CAPITAL || (class == HYPHEN && class_at(text, at + 1) <= CAPITAL)
}

// Whether the byte doesn't end a comment: it is not 10 or 13, and not the first of two hyphens.
pub fn in_comment(text: &[u8], at: usize) -> bool
    requires { at < length text.now }
    ensures { result ≡ comment_byte (get_or text.now at 0) (get_or text.now (at + 1) 0) }
{
    match class_of(text[at]) {
        NEWLINE => false,
        HYPHEN => class_at(text, at + 1) != HYPHEN,
        _ => true,
    }
}

// The end of the run: the first place from `at` on whose byte doesn't belong to it, or the end of the text. An index, not a `for`: with one
// that returns from its middle a long hex string took half more time.
pub fn run_end<F: Fn(usize) -> bool>(text: &[u8], at: usize, belongs: F) -> usize
    requires inside { at ≤ length text.now }
    requires calls { (i : _) → i < length text.now → F.pre belongs i }
    ensures { EndsRun (λ i r. F.post belongs i r) (length text.now) at result }
{
    let mut i = at;
    while i < text.len() && belongs(i) {
        i += 1;
    }
    i
}

// One more than the largest number: what stands for every larger value.
const TOO_LARGE: u64 = 4294967296;

// A run of digits: its end, and its value or TOO_LARGE.
#[derive(Clone, Copy)]
pub struct Digits {
    pub end: usize,
    pub value: u64,
}

// The value of digits with one digit more, or TOO_LARGE. A byte below the digits counts 0.
pub fn more(value: u64, byte: u8) -> u64
    requires { value ≤ too_large }
    ensures { result ≡ capped (10 * value + (byte - 48)) }
{
    (10 * value + u64::from(byte.saturating_sub(b'0'))).min(TOO_LARGE)
}

// The run of digits.
pub fn digit_run(text: &[u8], at: usize) -> Digits
    requires { at ≤ length text.now }
    ensures end { result.end ≡ at + span digit_byte (drop at text.now) }
    ensures value { result.value ≡ capped (decimal (take (result.end - at) (drop at text.now))) }
{
    // One walk: with `run_end` and a second one for the value a number costs a third more.
    let mut value = 0;
    for i in at..text.len() {
        if class_of(text[i]) != DIGIT {
            return Digits { end: i, value };
        }
        value = more(value, text[i]);
    }
    Digits {
        end: text.len(),
        value,
    }
}
