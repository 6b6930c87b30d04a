// Words of a text, as the sentences have them.
ghost use Rattle.std.specs.Prelude.{◌≤◌, length};

use crate::source::within;
use buffer::byte_at;
use output::{Output, print, show};

// The most bytes that are quoted of a word, as many as a name may have.
const LONGEST: usize = 64;

// The byte behind a place, or 0 where there is none.
pub fn byte_behind(text: &[u8], place: usize) -> u8 {
    if place < text.len() {
        byte_at(text, place + 1)
    } else {
        0
    }
}

// Whether a name or a number goes on at i: a letter or a digit, or a hyphen before one.
fn goes_on(text: &[u8], i: usize) -> bool {
    let b = byte_at(text, i);
    b.is_ascii_alphanumeric() || b == b'-' && byte_behind(text, i).is_ascii_alphanumeric()
}

// Where the word ends that stands at a place: a name or a number.
pub fn word_end(text: &[u8], at: usize) -> usize
    requires { at ≤ length text.now }
    ensures low { at ≤ result }
    ensures high { result ≤ length text.now }
{
    for i in at + 1..text.len() {
        if !goes_on(text, i) {
            return i;
        }
    }
    text.len()
}

// The word that stands at a place, in quotes.
pub fn print_word(text: &[u8], place: usize, out: Output) -> Output {
    let at = within(text, place);
    match byte_at(text, at) {
        b'"' => print(out, b"a text"),
        b'\'' => print(out, b"a hex string"),
        b':' => print(out, b"'::='"),
        b'.' => print(out, b"'..'"),
        _ => print_quoted(text, at, out),
    }
}

// Where it ends: a mark has one byte, whatever follows it.
fn quoted_end(text: &[u8], at: usize) -> usize
    requires { at ≤ length text.now }
    ensures low { at ≤ result }
    ensures high { result ≤ length text.now }
{
    if goes_on(text, at) {
        return word_end(text, at);
    }
    text.len().min(at + 1)
}

fn print_quoted(text: &[u8], at: usize, out: Output) -> Output
    requires { at ≤ length text.now }
{
    let end = quoted_end(text, at);
    let out = print(out, b"'");
    if LONGEST < end - at {
        let part = show(out, &text[at..at + LONGEST]);
        return print(part, b"..'");
    }
    let out = show(out, &text[at..end]);
    print(out, b"'")
}
