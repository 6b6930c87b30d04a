// Prints the cards of module files.
//
// card FILE prints what a module defines: a line `accepted` with the count, and a line for each definition: kind, name, dotted OID
// or -, class, access, status, with tabs between them. A module that breaks a rule gives one line: refused, the number and the
// place. With several files, a line with the file's name heads each card.
#![tactic(auto)]

ghost use Rattle.std.specs.Prelude.{◌*◌, ◌≤◌, ◌<◌, ◌≡◌, length};
ghost use Rattle.card.specs.Page.{longest_path, page_size, full};

use card_line::{Record, write_head};
use output::Output;
use reader::{FILE_BYTES, NUMBER_WORDS, PlainRefusal, RECORD_WORDS};
use std::io;

// How many bytes a page has.
const PAGE_SIZE: usize = 16384;

// Once a page holds so many bytes it is written out. Behind them there is room for what comes next, which is a line at most.
const FULL: usize = 8192;

// How many bytes a file's name may have.
const NAME: usize = 4096;

fn main(rt: HostRuntime) {
    let count = command::count_arguments(&rt);
    let mut page = Page {
        bytes: [0; PAGE_SIZE],
        at: 0,
        out: start(&rt, count),
    };
    for i in 1..count {
        print_argument(&rt, i, 2 < count, &mut page);
    }
    page.write_out();
    output::finish(&rt, page.out);
}

fn start(rt: &HostRuntime, count: usize) -> Output {
    output::start_on_files(rt, count, b"mib card", b"mib card FILE...")
}

// Lays the card of the file that argument i names into the page, behind a line with its name where it is named; or says why the file
// cannot be read.
fn print_argument(rt: &HostRuntime, i: usize, named: bool, page: &mut Page) {
    let mut name = [0u8; NAME];
    let mut buf = [0u8; FILE_BYTES];
    let file = command::read_argument(rt, i, &mut name, &mut buf);
    let n = file.name;
    let count = match file.content {
        Ok(count) => count,
        Err(error) => {
            page.fail(error, &name[..n]);
            return;
        }
    };
    if named {
        page.lay_name(&name[..n]);
    }
    page.lay_card(&buf[..count]);
}

// The bytes that are laid and not written out yet, up to `at`, and how the output went so far.
#[derive(Drop)]
struct Page {
    bytes: [u8; PAGE_SIZE],
    at: usize,
    out: Output,
    ghost inside: { at ≤ page_size },
}

impl Page {
    // Writes out what is laid.
    fn write_out(&mut self)
        ensures { self.new.at ≡ 0 }
    {
        let at = self.at;
        self.out = output::print(self.out, &self.bytes[..at]);
        self.at = 0;
    }

    // Writes the page out where it is full.
    fn make_room(&mut self)
        ensures { self.new.at < full }
    {
        if FULL <= self.at {
            self.write_out();
        }
    }

    // Says why a file cannot be read. What is laid is written out first, so that the two stand in order on a terminal.
    fn fail(&mut self, error: io::Error, name: &[u8])
        ensures { self.new.at ≡ 0 }
    {
        self.write_out();
        self.out = output::fail(self.out, error, name);
    }

    // A line with a file's name. Where standard output is a terminal, the name is shown, behind what is laid.
    fn lay_name(&mut self, name: &[u8])
        requires { length name.now ≤ longest_path }
    {
        if self.out.terminal {
            self.write_out();
            self.out = output::end_line(output::show(self.out, name));
            return;
        }
        self.make_room();
        let at = self.at;
        let next = buffer::copy(name, &mut self.bytes, at);
        self.at = buffer::put(&mut self.bytes, next, b'\n');
    }

    // Lays the card of a text.
    fn lay_card(&mut self, text: &[u8]) {
        let mut records = [0u32; RECORD_WORDS];
        let mut numbers = [0u32; NUMBER_WORDS];
        let answer = reader::read(text, &mut records, &mut numbers);
        self.lay_head(answer);
        match answer {
            Ok(count) => self.lay_records(text, &records[..records::WIDTH * count], &numbers),
            Err(_) => self.out = output::refuse(self.out),
        }
    }

    // The card's first line.
    fn lay_head(&mut self, answer: Result<usize, PlainRefusal>) {
        self.make_room();
        let at = self.at;
        self.at = write_head(answer, &mut self.bytes, at);
    }

    // A line for each of the records.
    fn lay_records(&mut self, text: &[u8], records: &[u32], numbers: &[u32]) {
        for words in records.chunks(records::WIDTH) {
            self.make_room();
            let at = self.at;
            self.at = Record {
                text,
                words,
                numbers,
            }
            .write(&mut self.bytes, at);
        }
    }
}
