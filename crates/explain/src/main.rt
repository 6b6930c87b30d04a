// Says in words why modules are refused.
//
// explain FILE prints, for a module that is refused, FILE:LINE:COLUMN, the number and the rule with the word at fault, then the line and a
// mark below the place; and for a rule about two things the other one likewise. A module that is accepted gives one line.
#![tactic(auto)]

mod class_name;
mod count;
mod expected;
mod fault;
mod import;
mod name;
mod range;
mod reason;
mod source;
mod table;
mod tokens;
mod unread;
mod word;

use fault::Fault;
use output::Output;
use reader::{FILE_BYTES, NUMBER_WORDS, RECORD_WORDS, Refusal};
use source::print_source;

// How many bytes a file's name may have.
const NAME: usize = 4096;

fn main(rt: HostRuntime) {
    let count = command::count_arguments(&rt);
    let mut out = start(&rt, count);
    for i in 1..count {
        out = explain_argument(&rt, i, out);
    }
    output::finish(&rt, out);
}

fn start(rt: &HostRuntime, count: usize) -> Output {
    output::start_on_files(rt, count, b"mib explain", b"mib explain FILE...")
}

// Explains the file that argument i names; or says why it cannot be read.
fn explain_argument(rt: &HostRuntime, i: usize, out: Output) -> Output {
    let mut name = [0u8; NAME];
    let mut buf = [0u8; FILE_BYTES];
    let file = command::read_argument(rt, i, &mut name, &mut buf);
    let n = file.name;
    let count = match file.content {
        Ok(count) => count,
        Err(error) => return output::fail(out, error, &name[..n]),
    };
    explain_text(&name[..n], &buf[..count], out)
}

// Number, place, clause and the other place are the reader's.
fn explain_text(name: &[u8], text: &[u8], out: Output) -> Output {
    let mut records = [0u32; RECORD_WORDS];
    let mut numbers = [0u32; NUMBER_WORDS];
    match reader::examine(text, &mut records, &mut numbers) {
        Ok(definitions) => {
            let out = output::show(out, name);
            count::print_accepted(&records, definitions, out)
        }
        Err(refusal) => explain_fault(
            Fault {
                name,
                text,
                refusal,
            },
            output::refuse(out),
        ),
    }
}

// The place at fault with its reason, and then the other one, where the rule is about two.
fn explain_fault(fault: Fault, out: Output) -> Output {
    let place = fault.place();
    let out = source::print_head(fault, place, out);
    let out = reason::print_reason(fault, out);
    let out = print_source(fault.text, place, out);
    match fault.other() {
        // The module of an import stands beside the symbol, and is named in the sentence.
        Some(other) if fault.refusal.number != 10 => explain_other(fault, other, out),
        _ => out,
    }
}

fn explain_other(fault: Fault, other: usize, out: Output) -> Output {
    let out = source::print_head(fault, other, out);
    let out = reason::print_other(fault, out);
    print_source(fault.text, other, out)
}
