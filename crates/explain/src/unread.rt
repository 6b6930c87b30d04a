// Why no token starts at a place: the byte, and what it could have been.
use crate::source::within;
use crate::word::{byte_behind, print_word};
use buffer::byte_at;
use output::{Output, print, print_number};

pub fn print_unread(text: &[u8], place: usize, out: Output) -> Output {
    let out = print_cause(text, place, out);
    if follows_open_text(text, place) {
        print(out, b"; a text above may lack its end quote")
    } else {
        out
    }
}

fn print_cause(text: &[u8], place: usize, out: Output) -> Output {
    match byte_at(text, place) {
        b'"' => print(out, b"a text starts here, and has no end quote"),
        b'\'' => print(
            out,
            b"a hex string has hex digits between apostrophes, and then H",
        ),
        b'-' => print_hyphen(text, place, out),
        b'0'..=b'9' => print_digits(text, place, out),
        _ => print_start(text, place, out),
    }
}

// A hyphen that starts neither a comment nor a number.
fn print_hyphen(text: &[u8], place: usize, out: Output) -> Output {
    let next = byte_behind(text, place);
    if next == b'0' {
        return print(out, b"a hyphen may not stand before 0");
    }
    if next.is_ascii_digit() {
        let out = print_word(text, place, out);
        return print(
            out,
            b" is no number: a letter stands directly behind its digits",
        );
    }
    print(
        out,
        b"a hyphen starts no token here: a name has single ones inside, a number one before its digits, and a comment starts with two",
    )
}

// Digits that are no number.
fn print_digits(text: &[u8], place: usize, out: Output) -> Output {
    let out = print_word(text, place, out);
    if byte_at(text, place) == b'0' && byte_behind(text, place).is_ascii_digit() {
        return print(
            out,
            b" starts with 0, as a number of several digits may not",
        );
    }
    print(
        out,
        b" is neither a number nor a name: a name starts with a letter",
    )
}

// Any other byte.
fn print_start(text: &[u8], place: usize, out: Output) -> Output {
    if starts_with_mark(text, place) {
        return print(
            out,
            b"the text starts with a byte-order mark; save it without one",
        );
    }
    let b = byte_at(text, place);
    let out = print(out, b"byte ");
    let out = print_number(out, b as u64);
    let out = print_character(text, place, out);
    let out = print(out, b" starts no token");
    print(out, advice(b))
}

// Whether the byte-order mark of UTF-8 stands at the place, and that is the text's start.
fn starts_with_mark(text: &[u8], place: usize) -> bool {
    place == 0 && text.starts_with(&[0xEF, 0xBB, 0xBF])
}

// The character that the byte is, where it can be seen.
fn print_character(text: &[u8], place: usize, out: Output) -> Output {
    match byte_at(text, place) {
        b'_' => print(out, b" (underscore)"),
        b @ 33..=126 => print_in_brackets(&[b], out),
        _ => out,
    }
}

fn print_in_brackets(bytes: &[u8], out: Output) -> Output {
    let out = print(out, b" (");
    let out = print(out, bytes);
    print(out, b")")
}

fn advice(b: u8) -> &'static [u8] {
    match b {
        b'_' => b": a name has letters, digits and hyphens",
        b':' => b": '::=' does",
        b'.' => b": '..' does",
        128..=255 => b": bytes over 127 may stand in comments alone",
        _ => b"",
    }
}

// Whether the last quote before the place stands directly before a letter or a digit: as the first quote of a text does, and as the last
// one, for which it was taken, seldom does.
fn follows_open_text(text: &[u8], place: usize) -> bool {
    let before = &text[..within(text, place)];
    match before.iter().rposition(|b| *b == b'"') {
        Some(i) => byte_behind(text, i).is_ascii_alphanumeric(),
        None => false,
    }
}
