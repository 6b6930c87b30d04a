// Prints the cards of module files in words.
//
// card_words FILE prints what card prints, with a word for each number, a hyphen for what a definition does not have, and the syntax as
// it is written behind the rest. Where standard output is a terminal, the columns are aligned.
#![tactic(auto)]

mod column;
mod meaning;
mod syntax_line;

use card_line::{Record, write_head};
use column::{Widths, print_column, print_last};
use output::Output;
use reader::{FILE_BYTES, NUMBER_WORDS, PlainRefusal, RECORD_WORDS};

// How many bytes a file's name may have.
const NAME: usize = 4096;

// How many bytes the numbers of an OID may take.
const LINE: usize = 4096;

// What the reader tells of an accepted text.
#[derive(Clone, Copy)]
struct Card<'a> {
    text: &'a [u8],
    records: &'a [u32],
    numbers: &'a [u32],
}

impl<'a> Card<'a> {
    // The record of these words.
    fn record(self, words: &'a [u32]) -> Record<'a, 'a> {
        Record {
            text: self.text,
            words,
            numbers: self.numbers,
        }
    }
}

fn main(rt: HostRuntime) {
    let count = command::count_arguments(&rt);
    let mut out = start(&rt, count);
    for i in 1..count {
        out = print_argument(&rt, i, 2 < count, out);
    }
    output::finish(&rt, out);
}

fn start(rt: &HostRuntime, count: usize) -> Output {
    output::start_on_files(rt, count, b"mib card", b"mib card --words FILE...")
}

// Prints the card of the file that argument i names, behind a line with its name where it is named; or says why it cannot be read.
fn print_argument(rt: &HostRuntime, i: usize, named: bool, out: Output) -> Output {
    let mut name = [0u8; NAME];
    let mut buf = [0u8; FILE_BYTES];
    let file = command::read_argument(rt, i, &mut name, &mut buf);
    let n = file.name;
    let count = match file.content {
        Ok(count) => count,
        Err(error) => return output::fail(out, error, &name[..n]),
    };
    if named {
        let headed = output::end_line(output::show(out, &name[..n]));
        return print_card(&buf[..count], headed);
    }
    print_card(&buf[..count], out)
}

fn print_card(text: &[u8], out: Output) -> Output {
    let mut records = [0u32; RECORD_WORDS];
    let mut numbers = [0u32; NUMBER_WORDS];
    let answer = reader::read(text, &mut records, &mut numbers);
    let out = print_head(answer, out);
    let Ok(_) = answer else {
        return output::refuse(out);
    };
    let card = Card {
        text,
        records: &records,
        numbers: &numbers,
    };
    print_records(card, out)
}

// The card's first line.
fn print_head(answer: Result<usize, PlainRefusal>, out: Output) -> Output {
    let mut line = [0u8; 64];
    let end = write_head(answer, &mut line, 0);
    output::print(out, &line[..end])
}

// A line for each record. Words that are not used are 0, which is no kind.
fn print_records(card: Card, out: Output) -> Output {
    let widths = if out.terminal {
        Some(column::measure(card))
    } else {
        None
    };
    let mut next = out;
    for words in card.records.chunks(records::WIDTH) {
        let record = card.record(words);
        if record.kind() != 0 {
            next = print_record(record, widths, next);
        }
    }
    next
}

// What a definition is, and what is said of it.
fn print_record(record: Record, widths: Option<Widths>, out: Output) -> Output {
    let out = print_definition(record, widths, out);
    print_attributes(record, widths, out)
}

// Kind, name and OID.
fn print_definition(record: Record, widths: Option<Widths>, out: Output) -> Output {
    let out = print_column(meaning::kind(record.kind()), widths.map(|w| w.kind), out);
    let out = print_column(record.name(), widths.map(|w| w.name), out);
    let mut line = [0u8; LINE];
    let end = record.write_oid(&mut line, 0);
    print_column(&line[..end], widths.map(|w| w.oid), out)
}

// Class, access, status and syntax.
fn print_attributes(record: Record, widths: Option<Widths>, out: Output) -> Output {
    let out = print_column(meaning::class(record.class()), widths.map(|w| w.class), out);
    let out = print_column(
        meaning::access(record.access()),
        widths.map(|w| w.access),
        out,
    );
    let out = print_column(
        meaning::status(record.status()),
        widths.map(|w| w.status),
        out,
    );
    print_syntax(record.syntax(), out)
}

// The syntax in one line; a hyphen where there is none.
fn print_syntax(syntax: &[u8], out: Output) -> Output {
    if syntax.is_empty() {
        return print_last(b"-", out);
    }
    let mut line = [0u8; FILE_BYTES];
    if line.len() < syntax.len() {
        return print_last(syntax, out);
    }
    let n = syntax_line::lay(syntax, &mut line);
    print_last(&line[..n], out)
}
