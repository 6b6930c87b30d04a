// Reads many modules in one go.
//
// shelf FILE... prints a line for each file: its name, `accepted` and the count of definitions; or its name, `refused`, the number and the
// place; with tabs between them. Without arguments the names are lines of standard input, and with -0 each ends with a byte 0. At the end a
// summary goes to standard error.
#![tactic(auto)]

mod counts;

use card_line::write_head;
use command::TooLong;
use counts::Counts;
use output::{Misfit, Output, Program};
use reader::{FILE_BYTES, NUMBER_WORDS, PlainRefusal, RECORD_WORDS, Refusal};
use std::io;
use std::rt::Env;

// At a terminal the count of files is shown whenever so many more are read.
const STRIDE: u64 = 64;

// How many bytes a line of the list may have.
const SPACE: usize = 65536;

const SHELF: Program<'static> = Program {
    name: b"mib shelf",
    usage: b"mib shelf FILE..., or names of files on standard input, a line each",
};

// The message for a line that the buffer cannot hold.
const LONG: Misfit = Misfit {
    word: b"..",
    why: b"is too long for a file's name",
};

fn main(rt: HostRuntime) {
    let mut counts = Counts::none();
    let mut out = Output::start(&rt);
    read_files(&rt, &mut counts, &mut out);
    print_summary(&counts, &out);
    out.finish(&rt);
}

fn read_files(rt: &HostRuntime, counts: &mut Counts, out: &mut Output) {
    if command::count_arguments(rt) <= 1 {
        read_list(rt, b'\n', counts, out);
    } else if is_ended_by_zero(rt) {
        read_list(rt, 0, counts, out);
    } else {
        let mut text = [0u8; FILE_BYTES];
        command::each_file(
            rt,
            &mut text,
            |name, content| answer_file(name, content, counts, out),
        );
    }
}

// Whether the first argument is -0: the names come on standard input, and a byte 0 ends each.
fn is_ended_by_zero(rt: &HostRuntime) -> bool {
    let mut word = [0u8; 3];
    match rt.arg(1, &mut word) {
        Ok(n) => matches!(&word[..n], b"-0"),
        Err(_) => false,
    }
}

// Reads the files that the lines of standard input name, which end with this byte.
fn read_list(rt: &HostRuntime, end: u8, counts: &mut Counts, out: &mut Output) {
    let mut space = [0u8; SPACE];
    output::say_waiting(
        rt,
        b"mib shelf: waiting for the names of files, a line each; Ctrl-D ends them\n",
    );
    let read = command::each_line(rt, &mut space, end, |number, line| {
        read_line(rt, number, line, counts, out)
    });
    out.fail_if(read.err(), b"mib shelf: standard input");
}

// Reads the file that a line of the list names.
fn read_line(
    rt: &HostRuntime,
    number: u64,
    line: Result<&[u8], TooLong>,
    counts: &mut Counts,
    out: &mut Output,
) {
    match line {
        Ok(name) => read_named(rt, name, counts, out),
        Err(TooLong) => {
            counts.add_unread();
            out.complain(SHELF, Some(number), LONG);
        }
    }
}

fn read_named(rt: &HostRuntime, name: &[u8], counts: &mut Counts, out: &mut Output) {
    let mut text = [0u8; FILE_BYTES];
    match command::read_file(rt, name, &mut text) {
        Ok(n) => answer_file(name, Ok(&text[..n]), counts, out),
        Err(error) => answer_file(name, Err(error), counts, out),
    }
}

// Counts a file and prints its line; or says why it cannot be read.
fn answer_file(name: &[u8], content: io::Result<&[u8]>, counts: &mut Counts, out: &mut Output) {
    match content {
        Ok(text) => answer_text(name, text, counts, out),
        Err(error) => {
            counts.add_unread();
            out.fail(error, name);
        }
    }
    show_progress(counts.files, out);
}

fn answer_text(name: &[u8], text: &[u8], counts: &mut Counts, out: &mut Output) {
    match read_text(text) {
        Ok(definitions) => {
            counts.add_accepted();
            print_line(name, Ok(definitions), out);
        }
        Err(refusal) => {
            counts.add_refused(text, refusal);
            out.refuse();
            print_line(
                name,
                Err(PlainRefusal {
                    number: refusal.number,
                    place: refusal.place,
                }),
                out,
            );
        }
    }
}

fn read_text(text: &[u8]) -> Result<usize, Refusal> {
    let mut records = [0u32; RECORD_WORDS];
    let mut numbers = [0u32; NUMBER_WORDS];
    reader::examine(text, &mut records, &mut numbers)
}

// The name, a tab, and the first line of the card.
fn print_line(name: &[u8], answer: Result<usize, PlainRefusal>, out: &mut Output) {
    let mut line = [0u8; 64];
    line[0] = b'\t';
    let end = write_head(answer, &mut line, 1);
    out.show(name);
    out.print(&line[..end]);
}

// Whether the count of files is shown: at a terminal, unless the lines of the files go there too, which show it themselves.
fn shows_progress(out: &Output) -> bool {
    out.console && !out.terminal
}

// Says how many files were read, in a line that the next one takes the place of.
fn show_progress(files: u64, out: &Output) {
    if files % STRIDE == 0 && shows_progress(out) {
        out.say_number(files);
        out.say(b" files\r");
    }
}

// How many files there were, how many of them were accepted, how many refused by each number, how many of these are outside what is read,
// and how many could not be read. Blanks take the place of the line that showed the progress.
fn print_summary(counts: &Counts, out: &Output) {
    if shows_progress(out) {
        out.say(b"                          \r");
    }
    print_count(b"files\t", counts.files, out);
    print_count(b"accepted\t", counts.accepted, out);
    for (number, count) in counts.refused.iter().enumerate() {
        if *count != 0 {
            out.say(b"refused\t");
            out.say_number(number as u64);
            print_count(b"\t", *count, out);
        }
    }
    print_count(b"outside\t", counts.outside, out);
    print_count(b"unread\t", counts.unread, out);
}

fn print_count(what: &[u8], count: u64, out: &Output) {
    out.say(what);
    out.say_number(count);
    out.say(b"\n");
}
