// Why a call of the system failed, in the system's words.
ghost use Rattle.std.specs.Prelude.{◌≤◌};

use std::io::{Cursor, Write};
use std::{io, str};

// The most bytes that the words of an error have.
const LONGEST: usize = 256;

// What stands behind the system's words where the library prints them: the error's number, in brackets.
const NUMBER: &str = " (os error ";

// How many bytes were printed, of as many as there is room for.
fn bytes_before(position: u64) -> usize
    ensures { result ≤ 256 }
{
    if position < 256 {
        position as usize
    } else {
        LONGEST
    }
}

// The words alone.
fn without_number(text: &str) -> &str {
    match text.rsplit_once(NUMBER) {
        Some((words, _)) => words,
        None => text,
    }
}

// Writes a colon and why a call failed, and ends the line.
pub fn write_cause(to: &impl Print, error: io::Error) {
    let mut printer = Cursor::new([0u8; LONGEST]);
    let _ = write!(printer, "{error}");
    let count = bytes_before(printer.position());
    let text = printer.into_inner();
    let words = match str::from_utf8(&text[..count]) {
        Ok(printed) => without_number(printed),
        Err(_) => "",
    };
    let _ = to.write_all(b": ");
    let _ = to.write_all(words.as_bytes());
    let _ = to.write_all(b"\n");
}
