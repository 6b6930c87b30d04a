// Reads hints for octets: their pieces. Numbers and format letters serve hints for integers too. A format stays its letter, as
// `longest` and `base_of` of specs/Hint.antt have it: a hint for integers has one letter more. 0 is the length that no format
// allows, the same definition's word for it.
#![tactic(auto)]

ghost use Rattle.std.specs.Prelude.{◌<◌, ◌^◌, ◌≡◌, cond, ◌&&◌, None, length};
ghost use Rattle.character.specs.Cut.{cut, stuck_at};
ghost use Rattle.hint_form.specs.Hint.{found, is_pieces, piece_size, read_hint, digit, mark, mark_at, mark_size, number_at, allowed, longest, length_place, starred, base_of, has_mark};

mod fault;

use buffer::byte_at;
pub use fault::{Fault, integer_fault, octets_fault};

// The most digits that a number of a hint has: none is over 255.
const DIGITS: usize = 3;

// The most bytes that a hint for octets has.
const LONGEST: usize = 255;

// One octet-format specification.
#[derive(Clone, Copy)]
pub struct Piece {
    pub starred: bool,
    pub size: usize,
    pub format: u8,
    pub separator: Option<u8>,
    pub terminator: Option<u8>,
}

// A number of a hint, and the place after it.
#[derive(Clone, Copy)]
pub struct Number {
    pub value: usize,
    pub next: usize,
}

#[tactic(auto, unfolding(crate::specs::Hint::digit))]
fn is_digit(b: u8) -> bool
    ensures { result ≡ digit b }
{
    b.is_ascii_digit()
}

// Whether a byte may be a separator or a terminator.
#[tactic(auto, using(std::proofs::lemmas::Bool::Decides::nat_tests), unfolding(crate::specs::Hint::mark))]
fn is_mark(b: u8) -> bool
    ensures { result ≡ mark b }
{
    (32..=126).contains(&b) && !is_digit(b) && b != b'*'
}

// The separator or terminator at a place, if there is one.
#[tactic(auto, unfolding(crate::specs::Hint::mark_at))]
fn mark_at(hint: &[u8], i: usize) -> Option<u8>
    ensures { result ≡ mark_at hint.now i }
{
    let b = byte_at(hint, i);
    if is_mark(b) { Some(b) } else { None }
}

// How many bytes a separator or terminator has.
#[tactic(auto, unfolding(crate::specs::Hint::mark_size))]
fn mark_size(mark: Option<u8>) -> usize
    ensures { result ≡ mark_size mark }
{
    match mark {
        Some(_) => 1,
        None => 0,
    }
}

// The number at a place, of three digits at most, and the place after it; 0 where there is none.
pub fn number_at(hint: &[u8], i: usize) -> Number
    requires { i < 2 ^ 63 }
    ensures { result ≡ number_at hint.now i }
{
    let mut value = 0;
    for next in i..i + DIGITS {
        let b = byte_at(hint, next);
        if !is_digit(b) {
            return Number { value, next };
        }
        value = value * 10 + (b - b'0') as usize;
    }
    Number {
        value,
        next: i + DIGITS,
    }
}

// The greatest length that a format allows, 0 where the byte is no format.
#[tactic(auto, unfolding(crate::specs::Hint::longest, crate::specs::Hint::numeric, crate::specs::Hint::passes))]
fn longest_of(format: u8) -> usize
    ensures { result ≡ longest format }
{
    match format {
        b'x' | b'd' | b'o' => 8,
        b'a' | b't' => LONGEST,
        _ => 0,
    }
}

// Whether the repeat indicator stands at a place.
#[tactic(auto, unfolding(crate::specs::Hint::starred))]
fn is_starred(hint: &[u8], i: usize) -> bool
    ensures { result ≡ starred hint.now i }
{
    byte_at(hint, i) == b'*'
}

// Where the length of the piece at i starts.
#[tactic(auto, unfolding(crate::specs::Hint::length_place))]
fn length_place(hint: &[u8], i: usize) -> usize
    requires { i < length hint.now }
    ensures { result ≡ length_place hint.now i }
{
    if is_starred(hint, i) { i + 1 } else { i }
}

// Whether a number with this first byte has no leading zero and is from 1 to a bound.
#[tactic(auto, using(std::proofs::lemmas::Bool::Decides::nat_tests), unfolding(crate::specs::Hint::allowed))]
pub fn is_allowed(first: u8, value: usize, most: usize) -> bool
    ensures { result ≡ allowed first value most }
{
    first != b'0' && (1..=most).contains(&value)
}

// The terminator at a place of a piece, if there is one: only after `*` and a separator.
fn terminator_at(hint: &[u8], star: bool, separator: Option<u8>, place: usize) -> Option<u8>
    ensures { result ≡ cond (star && has_mark separator) (mark_at hint.now place) None }
{
    if star && separator.is_some() {
        mark_at(hint, place)
    } else {
        None
    }
}

// The piece at a place and the place after it, or nothing where no piece starts there.
pub fn piece_at(hint: &[u8], i: usize) -> Option<(Piece, usize)>
    requires { i < length hint.now }
    ensures { result ≡ found hint.now i }
{
    let start = length_place(hint, i);
    let number = number_at(hint, start);
    let size = number.value;
    let place = number.next;
    let format = byte_at(hint, place);
    if !is_allowed(byte_at(hint, start), size, longest_of(format)) {
        return None;
    }
    let starred = is_starred(hint, i);
    let separator = mark_at(hint, place + 1);
    let terminator = terminator_at(hint, starred, separator, place + 2);
    let next = place + 1 + mark_size(separator) + mark_size(terminator);
    let piece = Piece {
        starred,
        size,
        format,
        separator,
        terminator,
    };
    Some((piece, next))
}

// How many bytes the piece at i has, 0 where none starts there.
fn piece_size(hint: &[u8], i: usize) -> usize
    requires { i < length hint.now }
    ensures { result ≡ piece_size hint.now i }
{
    match piece_at(hint, i) {
        Some((_, next)) => next - i,
        None => 0,
    }
}

// The first place at which no piece starts, if there is one. The closure is lent: passed by itself it gets no proof.
fn first_stuck(hint: &[u8]) -> Option<usize>
    ensures { result ≡ stuck_at (cut (piece_size hint.now) (length hint.now)) }
{
    character::first_stuck(hint.len(), &|i| piece_size(hint, i))
}

// Whether a hint is 1 to 255 bytes that are pieces.
pub fn is_hint(hint: &[u8]) -> bool
    ensures { result ≡ is_pieces (read_hint hint.now) }
{
    (1..=LONGEST).contains(&hint.len()) && first_stuck(hint).is_none()
}

// The base that a format letter means.
#[tactic(auto, unfolding(crate::specs::Hint::base_of))]
pub fn base_of(format: u8) -> u64
    ensures { result ≡ base_of format }
{
    match format {
        b'x' => 16,
        b'o' => 8,
        b'b' => 2,
        _ => 10,
    }
}
