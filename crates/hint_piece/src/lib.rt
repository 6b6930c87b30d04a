// Prints octets by one piece of a hint. `value` and `at` stay two parameters: the place of a fault counts from the value's start.
#![tactic(auto)]

ghost use Rattle.std.specs.Prelude.{◌+◌, ◌-◌, ◌*◌, ◌≤◌, ◌<◌, ◌≡◌, length, take, drop};
ghost use Rattle.hint_form.specs.Hint.{longest, passes};
ghost use Rattle.buffer.specs.Buffer.{Wrote};
ghost use Rattle.hint_piece.specs.Use.{use_text, optional, following, one_use, uses, repeats, uses_start};
ghost use Rattle.hint_piece.specs.Followed.{Followed};

use buffer::{copy, put};
use character::first_fault;
use digit::{big_endian, print_digits};
use hint_form::{Piece, base_of};

// Where the first octet stands that isn't of its format, or its character's start.
#[derive(Clone, Copy, PartialEq, Eq)]
pub struct BadOctet(pub usize);

// Whether a format passes characters on.
#[tactic(auto, unfolding(hint_form::specs::Hint::passes))]
fn passes_on(format: u8) -> bool
    ensures { result ≡ passes format }
{
    matches!(format, b'a' | b't')
}

// Writes the text of one use, whose octets start at a place of the value, and answers the place after it.
fn print_use(s: &[u8], at: usize, format: u8, out: &mut [u8], pos: usize) -> Result<usize, BadOctet>
    requires some { 0 < length s.now }
    requires allowed { length s.now ≤ longest format }
    requires early { at ≤ 1024 }
    requires room { pos + 4 * length s.now ≤ length out.old }
    ensures { Followed (use_text format at s.now) pos result out.old out.new }
{
    if !passes_on(format) {
        let n = big_endian(s);
        let base = base_of(format);
        return Ok(print_digits(n, base, out, pos));
    }
    match first_fault(format, s) {
        Some(i) => Err(BadOctet(at + i)),
        None => Ok(copy(s, out, pos)),
    }
}

// Writes one byte, if there is one, and answers the place after it.
fn put_optional(out: &mut [u8], at: usize, byte: Option<u8>) -> usize
    requires { at + length (optional byte) ≤ length out.old }
    ensures { Wrote (optional byte) at result out.old out.new }
{
    match byte {
        Some(b) => put(out, at, b),
        None => at,
    }
}

// The byte that follows a use, if one does.
fn following(piece: Piece, left: usize, value: &[u8], next: usize) -> Option<u8>
    ensures { result ≡ following piece left value.now next }
{
    if value.len() <= next {
        return None;
    }
    if left == 0 {
        piece.terminator.or(piece.separator)
    } else {
        piece.separator
    }
}

// The octets of the use that starts at a place: as many as the length says, or the fewer left.
fn use_octets(value: &[u8], at: usize, size: usize) -> &[u8]
    requires { at ≤ length value.now }
    ensures { result.now ≡ take size (drop at value.now) }
{
    let rest = &value[at..];
    &rest[..size.min(rest.len())]
}

// Writes one use and what follows it.
fn print_one(
    value: &[u8],
    at: usize,
    piece: Piece,
    left: usize,
    out: &mut [u8],
    pos: usize,
) -> Result<usize, BadOctet>
    requires octet { at < length value.now }
    requires short { length value.now ≤ 1024 }
    requires some { 0 < piece.size }
    requires allowed { piece.size ≤ longest piece.format }
    requires room { pos + 4 * (length value.now - at) ≤ length out.old }
    ensures { Followed (one_use piece left value.now at) pos result out.old out.new }
{
    let octets = use_octets(value, at, piece.size);
    let next = print_use(octets, at, piece.format, out, pos)?;
    let mark = following(piece, left, value, at + piece.size);
    Ok(put_optional(out, next, mark))
}

// Writes so many uses of a piece, or fewer where no octet is left.
pub fn print_uses(
    value: &[u8],
    start: usize,
    piece: Piece,
    count: usize,
    out: &mut [u8],
    pos: usize,
) -> Result<usize, BadOctet>
    requires short { length value.now ≤ 1024 }
    requires early { start ≤ 1024 }
    requires some { 0 < piece.size }
    requires allowed { piece.size ≤ longest piece.format }
    requires room { pos + 4 * (length value.now - start) ≤ length out.old }
    ensures { Followed (uses count piece value.now start) pos result out.old out.new }
{
    let mut at = start;
    let mut next = pos;
    for left in (0..count).rev() {
        if value.len() <= at {
            return Ok(next);
        }
        next = print_one(value, at, piece, left, out, next)?;
        at += piece.size;
    }
    Ok(next)
}

// How often a piece is used.
#[tactic(auto, unfolding(crate::specs::Use::repeats))]
pub fn repeats_of(piece: Piece, value: &[u8], at: usize) -> usize
    requires { at < length value.now }
    ensures { result ≡ repeats piece value.now at }
{
    if piece.starred {
        usize::from(value[at])
    } else {
        1
    }
}

// Where its uses start.
#[tactic(auto, unfolding(crate::specs::Use::uses_start))]
pub fn uses_start(piece: Piece, at: usize) -> usize
    requires { at ≤ 1024 }
    ensures { result ≡ uses_start piece at }
{
    if piece.starred { at + 1 } else { at }
}
