// Prints the tokens of module files.
//
// tokens FILE prints a line for each token: its start, its end and its class, with tabs between them; and a last line: derived
// where the grammar derives the tokens, else refused, 7 and the place. A text that does not cut into tokens gives just one line:
// refused, the number and the place. With several files, a line with the file's name heads each listing.
#![tactic(auto)]

ghost use Rattle.std.specs.Prelude.{◌≤◌, length};
ghost use Rattle.lexicon.specs.Word.{Within};
ghost use Rattle.token.specs.Cut.{cut};
ghost use Rattle.token.specs.Table.{longest_text, TokenTable};

use output::{Output, Program};
use std::io;
use syntax::Unparsed;
use token::LONGEST_TEXT;

const TOKENS: Program<'static> = Program {
    name: b"mib tokens",
    usage: b"mib tokens FILE...",
};

// The buffer for a file has a byte more than a text may have, to tell a longer file.
fn main(rt: HostRuntime) {
    let count = command::count_arguments(&rt);
    let mut out = Output::start_on_files(&rt, count, TOKENS);
    let mut buf = [0u8; LONGEST_TEXT + 1];
    command::each_file(&rt, &mut buf, |name, content| {
        list_file(name, content, 2 < count, &mut out)
    });
    out.finish(&rt);
}

// Lists a file, behind a line with its name where it is named; or says why it cannot be read.
fn list_file(name: &[u8], content: io::Result<&[u8]>, named: bool, out: &mut Output) {
    match content {
        Ok(text) => {
            if named {
                print_line(name, out);
            }
            list_bytes(text, out);
        }
        Err(error) => out.fail(error, name),
    }
}

fn print_line(line: &[u8], out: &mut Output) {
    out.show(line);
    out.end_line();
}

// Lists a text, or refuses it where it is too long.
fn list_bytes(text: &[u8], out: &mut Output) {
    if LONGEST_TEXT < text.len() {
        print_refusal(2, 0, out);
    } else {
        list_text(text, out);
    }
}

fn print_refusal(number: u64, place: u64, out: &mut Output) {
    out.refuse();
    out.print(b"refused\t");
    out.print_number(number);
    out.print_tab();
    out.print_number(place);
    out.end_line();
}

// Lists the tokens of a text and says whether the grammar derives them, or prints the refusal of a text that does not cut
// into tokens.
fn list_text(text: &[u8], out: &mut Output)
    requires { length text.now ≤ longest_text }
{
    let mut classes = [0u8; LONGEST_TEXT];
    let mut starts = [0u32; LONGEST_TEXT];
    let mut ends = [0u32; LONGEST_TEXT];
    match syntax::parse(text, &mut classes, &mut starts, &mut ends) {
        Ok(count) => {
            list_tokens(text, &classes, &starts, &ends, count, out);
            print_line(b"derived", out);
        }
        Err(Unparsed::Underived(count, place)) => {
            list_tokens(text, &classes, &starts, &ends, count, out);
            print_refusal(7, place.0 as u64, out);
        }
        Err(Unparsed::Uncut(refusal)) => {
            print_refusal(refusal.cause.number() as u64, refusal.place.0 as u64, out);
        }
    }
}

// A line for each of the first `count` entries of the table. An index, not an iterator: a token stands in three arrays.
fn list_tokens(
    text: &[u8],
    classes: &[u8; LONGEST_TEXT],
    starts: &[u32; LONGEST_TEXT],
    ends: &[u32; LONGEST_TEXT],
    count: usize,
    out: &mut Output,
)
    requires { TokenTable text.now (cut text.now).tokens classes.now starts.now ends.now count }
{
    for i in 0..count {
        print_token(text, classes[i], starts[i] as usize, ends[i] as usize, out);
    }
}

fn print_token(text: &[u8], class: u8, start: usize, end: usize, out: &mut Output)
    requires { Within text.now start end }
{
    out.print_number(start as u64);
    out.print_tab();
    out.print_number(end as u64);
    out.print_tab();
    out.print(class_name(class, &text[start..end]));
    out.end_line();
}

// A capital word or a mark as itself, and any other token by its class; the status and access words are lower too.
fn class_name(class: u8, token: &[u8]) -> &[u8] {
    match class {
        terminal::NUMBER | terminal::NEGATIVE => b"number",
        terminal::TEXT => b"text",
        terminal::HEX => b"hex",
        terminal::UPPER => b"Upper",
        terminal::LOWER..=terminal::READ_CREATE => b"lower",
        _ => token,
    }
}
