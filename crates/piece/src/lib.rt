// What the text holds at a place: a token, a gap (blanks or a comment), or a refusal.
#![tactic(auto)]

ghost use Rattle.std.specs.Prelude.{◌≡◌, ◌+◌, ◌≤◌, ◌<◌, length, get_or, drop, true, Ok, Err};
ghost use Rattle.lexicon.specs.Byte.{digit_byte, alphanumeric};
ghost use Rattle.piece.specs.Piece.{span, name, misfit, non_negative, below_zero, comment, after_hyphen};
ghost use Rattle.piece.specs.Piece.{quoted, hex_string, marked, punctuation, piece};
ghost use Rattle.piece.specs.Found.{number, numbered, found_at};

mod scan;

pub use crate::scan::more;
use crate::scan::{byte_at, class_at, digit_run, in_classes, in_comment, in_name, run_end};
use index::Place;
use lexicon::byte::{
    APOSTROPHE, CAPITAL, CAPITAL_HEX, COLON, DIGIT, DOT, FEED, HYPHEN, NEWLINE, QUOTE, SMALL,
    SMALL_HEX, SPACE, class_of,
};
use lexicon::word::name_class;

// The largest name, in bytes; the largest number; the largest magnitude of a negative number.
const LONGEST_NAME: usize = 64;

const LARGEST_NUMBER: u64 = 4294967295;

const LARGEST_NEGATIVE: u64 = 2147483648;

// What stands at a place, with its end. A token has its terminal's class.
#[derive(Clone, Copy, PartialEq, Eq)]
pub enum Found {
    Gap(usize),
    Token(u8, usize),
}

// Why a text is refused at a place.
#[derive(Clone, Copy, PartialEq, Eq)]
pub enum Cause {
    // No token starts here.
    NoToken,
    // A text has a byte that is forbidden in it.
    Forbidden,
    // A name has more than 64 bytes.
    LongName,
    // A number is out of range.
    OutOfRange,
}

impl Cause {
    // The refusal's number.
    pub fn number(self) -> u8
        ensures { result ≡ number self }
    {
        match self {
            Cause::NoToken => 3,
            Cause::Forbidden => 4,
            Cause::LongName => 5,
            Cause::OutOfRange => 6,
        }
    }

    // The refusal for this cause, at a place.
    fn at(self, at: usize) -> Refusal
        ensures { result ≡ record { cause = self; place = record { 0 = at } } }
    {
        Refusal {
            cause: self,
            place: Place(at),
        }
    }
}

#[derive(Clone, Copy)]
pub struct Refusal {
    pub cause: Cause,
    pub place: Place,
}

// At a letter: a name.
fn name_at(text: &[u8], at: usize) -> Result<Found, Refusal>
    requires inside { at < length text.now }
    requires letter { alphanumeric (get_or text.now at 0) ≡ true }
    ensures { numbered result ≡ found_at at (name (drop at text.now)) }
{
    let end = run_end(text, at + 1, |i| in_name(text, i));
    if LONGEST_NAME < end - at {
        return Err(Cause::LongName.at(at));
    }
    Ok(Found::Token(name_class(&text[at..end]), end))
}

// Whether the run of digits from at to end is none of a number, because it starts with 0 and goes on or a letter follows.
fn is_misfit(text: &[u8], at: usize, end: usize) -> bool
    requires { end ≡ at + span digit_byte (drop at text.now) }
    ensures { result ≡ misfit (drop at text.now) }
{
    (byte_at(text, at) == b'0' && 1 < end - at) || class_at(text, end) <= CAPITAL
}

// At a digit: a number that is not negative.
fn number_at(text: &[u8], at: usize) -> Result<Found, Refusal>
    requires { at < length text.now }
    ensures { numbered result ≡ found_at at (non_negative (drop at text.now)) }
{
    let run = digit_run(text, at);
    if is_misfit(text, at, run.end) {
        return Err(Cause::NoToken.at(at));
    }
    if LARGEST_NUMBER < run.value {
        return Err(Cause::OutOfRange.at(at));
    }
    Ok(Found::Token(terminal::NUMBER, run.end))
}

// At a hyphen before a digit: a negative number. Not one function with `number_at`: this also refuses a 0 at the start, and class, limit and
// the place of the digits differ, so that one would take as many words as both.
fn negative_at(text: &[u8], at: usize) -> Result<Found, Refusal>
    requires { at < length text.now }
    ensures { numbered result ≡ found_at at (below_zero (drop (at + 1) text.now)) }
{
    let run = digit_run(text, at + 1);
    if byte_at(text, at + 1) == b'0' || is_misfit(text, at + 1, run.end) {
        return Err(Cause::NoToken.at(at));
    }
    if LARGEST_NEGATIVE < run.value {
        return Err(Cause::OutOfRange.at(at));
    }
    Ok(Found::Token(terminal::NEGATIVE, run.end))
}

// The end of the comment that starts with the two hyphens at a place.
fn comment_end(text: &[u8], at: usize) -> usize
    requires { at + 2 ≤ length text.now }
    ensures { Ok (Found.Gap result) ≡ found_at at (comment (drop (at + 2) text.now)) }
{
    let end = run_end(text, at + 2, |i| in_comment(text, i));
    if class_at(text, end) == HYPHEN && class_at(text, end + 1) == HYPHEN {
        return end + 2;
    }
    end
}

// At a hyphen: a comment, a negative number, or no token.
fn hyphen_at(text: &[u8], at: usize) -> Result<Found, Refusal>
    requires { at < length text.now }
    ensures { numbered result ≡ found_at at (after_hyphen (drop (at + 1) text.now)) }
{
    match class_at(text, at + 1) {
        HYPHEN => Ok(Found::Gap(comment_end(text, at))),
        DIGIT => negative_at(text, at),
        _ => Err(Cause::NoToken.at(at)),
    }
}

// At a quote: a text; a forbidden byte in it is refused there, and a missing end quote at the quote.
fn text_at(text: &[u8], at: usize) -> Result<Found, Refusal>
    requires { at < length text.now }
    ensures { numbered result ≡ found_at at (quoted (drop (at + 1) text.now)) }
{
    let end = run_end(text, at + 1, |i| in_classes(text, i, SMALL, SPACE));
    match text.get(end) {
        None => Err(Cause::NoToken.at(at)),
        Some(&byte) if class_of(byte) == QUOTE => Ok(Found::Token(terminal::TEXT, end + 1)),
        Some(_) => Err(Cause::Forbidden.at(end)),
    }
}

// At an apostrophe: a hex string, or no token.
fn hex_at(text: &[u8], at: usize) -> Result<Found, Refusal>
    requires { at < length text.now }
    ensures { numbered result ≡ found_at at (hex_string (drop (at + 1) text.now)) }
{
    let end = run_end(
        text,
        at + 1,
        |i| in_classes(text, i, SMALL_HEX, CAPITAL_HEX),
    );
    if class_at(text, end) == APOSTROPHE && byte_at(text, end + 1) == b'H' {
        return Ok(Found::Token(terminal::HEX, end + 2));
    }
    Err(Cause::NoToken.at(at))
}

// At the first byte of a mark, which is a colon or a dot: the mark, if the rest of it follows, or no token.
fn mark_at(text: &[u8], at: usize, rest: &[u8], class: u8) -> Result<Found, Refusal>
    requires { at < length text.now }
    ensures { numbered result ≡ found_at at (marked rest.now class (drop (at + 1) text.now)) }
{
    if text[at + 1..].starts_with(rest) {
        return Ok(Found::Token(class, at + 1 + rest.len()));
    }
    Err(Cause::NoToken.at(at))
}

// At a byte of this class, which is no blank, no letter and no digit.
fn punctuation_at(text: &[u8], at: usize, class: u8) -> Result<Found, Refusal>
    requires { at < length text.now }
    ensures { numbered result ≡ found_at at (punctuation class (drop (at + 1) text.now)) }
{
    match class {
        terminal::LEFT_BRACE..=terminal::BAR => Ok(Found::Token(class, at + 1)),
        HYPHEN => hyphen_at(text, at),
        QUOTE => text_at(text, at),
        COLON => mark_at(text, at, b":=", terminal::ASSIGN),
        DOT => mark_at(text, at, b".", terminal::DOTS),
        APOSTROPHE => hex_at(text, at),
        _ => Err(Cause::NoToken.at(at)),
    }
}

// What the text holds at a place before its end.
pub fn piece_at(text: &[u8], at: usize) -> Result<Found, Refusal>
    requires { at < length text.now }
    ensures { numbered result ≡ found_at at (piece (drop at text.now)) }
{
    match class_of(text[at]) {
        DIGIT => number_at(text, at),
        SMALL..=CAPITAL => name_at(text, at),
        NEWLINE..=FEED => Ok(Found::Gap(run_end(text, at, |i| in_classes(text, i, NEWLINE, FEED)))),
        class => punctuation_at(text, at, class),
    }
}
