// A place of a text as people see it: its line and column, the line itself, and a mark below the place.
ghost use Rattle.std.specs.Prelude.{◌≤◌, length};

use crate::fault::Fault;
use output::{Output, print, print_number, show};
use position::REACH;
use visible::WIDEST;

// The most bytes that are shown of a line up to a place.
const SHOWN: usize = WIDEST * REACH;

// A place that is inside the text, or its end.
pub fn within(text: &[u8], place: usize) -> usize
    ensures { result ≤ length text.now }
{
    place.min(text.len())
}

// FILE:LINE:COLUMN: refused NUMBER:, in the form that editors jump to. Columns count bytes.
pub fn print_head(fault: Fault, place: usize, out: Output) -> Output {
    let at = within(fault.text, place);
    let position = position::locate(fault.text, at);
    let out = show(out, fault.name);
    let out = print_colon(out);
    let out = print_number(out, position.line as u64);
    let out = print_colon(out);
    let out = print_number(out, (at - position.start) as u64 + 1);
    let out = print(out, b": refused ");
    let out = print_number(out, fault.refusal.number as u64);
    print(out, b": ")
}

fn print_colon(out: Output) -> Output {
    print(out, b":")
}

// The line that the place stands in, and a mark below the place.
pub fn print_source(text: &[u8], place: usize, out: Output) -> Output {
    let at = within(text, place);
    let out = output::end_line(out);
    let out = print_part(text, at, out);
    let out = output::end_line(out);
    print_mark(text, at, out)
}

// The line; of a long one a part, with dots where it is cut.
fn print_part(text: &[u8], at: usize, out: Output) -> Output
    requires { at ≤ length text.now }
{
    let part = position::shown_part(text, at);
    let from = part.from;
    let to = part.to;
    let out = print_if(position::locate(text, at).start < from, b"..", out);
    let out = show(out, &text[from..to]);
    print_if(to < position::line_end(text, at), b"..", out)
}

fn print_if(test: bool, bytes: &[u8], out: Output) -> Output {
    if test { print(out, bytes) } else { out }
}

// A mark below the place, behind what stands below what is shown up to it.
fn print_mark(text: &[u8], at: usize, out: Output) -> Output
    requires { at ≤ length text.now }
{
    let from = position::shown_part(text, at).from;
    let mut shown = [0u8; SHOWN];
    let mut margin = [0u8; SHOWN];
    let count = visible::write_visible(text, from, at - from, output::manner(out), &mut shown);
    let n = position::write_margin(&shown, 0, count, &mut margin);
    let out = print_if(position::locate(text, at).start < from, b"  ", out);
    let out = print(out, &margin[..n]);
    print(out, b"^\n")
}
