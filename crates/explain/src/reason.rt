// The rules in words, each with the word at fault.
use crate::expected::print_misplaced;
use crate::fault::Fault;
use crate::import::print_import;
use crate::name::{print_misfit, print_unknown};
use crate::range::{print_item, print_limits, print_range};
use crate::table::{print_access, print_notification, print_table, table_other};
use crate::unread::print_unread;
use crate::word::print_word;
use buffer::byte_at;
use output::{Output, print, print_number};

// Why the place is refused.
pub fn print_reason(fault: Fault, out: Output) -> Output {
    match fault.refusal.number {
        2 => print(
            out,
            b"the text has more than 65,536 bytes, which is this reader's limit",
        ),
        3 => print_unread(fault.text, fault.place(), out),
        4 => print_byte(fault.text, fault.place(), out),
        7 => print_misplaced(fault.text, fault.place(), out),
        _ => print_named(fault, out),
    }
}

// The word that it stands against.
pub fn print_other_word(fault: Fault, out: Output) -> Output {
    print_word(fault.text, fault.against(), out)
}

// Some words, and then what it stands against.
pub fn print_and_other(fault: Fault, words: &[u8], out: Output) -> Output {
    let out = print(out, words);
    let out = print(out, b", ");
    print_other_word(fault, out)
}

fn print_byte(text: &[u8], place: usize, out: Output) -> Output {
    let out = print(out, b"byte ");
    let out = print_number(out, byte_at(text, place) as u64);
    print(out, b" may not stand in a text")
}

// The rules whose reason starts with the word at fault.
fn print_named(fault: Fault, out: Output) -> Output {
    let out = print_word(fault.text, fault.place(), out);
    match fault.refusal.number {
        9 => print_again(fault, out),
        10 => print_import(fault, out),
        16 => print_range(fault, out),
        17 => print_limits(fault, out),
        18 => print_item(fault, out),
        20 => print_table(fault, out),
        21 => print_access(fault, out),
        22 => print_notification(fault, out),
        41 => print_unknown(fault, out),
        42 => print_misfit(fault, out),
        number => print(out, sentence(number)),
    }
}

// The rules that have one sentence.
fn sentence(number: u8) -> &'static [u8] {
    match number {
        5 => b" is a name of more than 64 bytes",
        6 => b" is out of range: a number may be -2147483648 to 4294967295",
        8 => b" is the 513th definition, and a module may have 512",
        12 => b" has an OID that never reaches a built-in name: its heads go round in a circle",
        13 => b" has an OID of more than 128 numbers",
        14 => b" has an OID with which those of the module pass 8,192 numbers",
        15 => b" has the OID of an earlier definition",
        19 =>
            b" is not one of the eight types of SNMPv2-SMI, imported, as the SYNTAX of a convention must be",
        _ => b" breaks a rule",
    }
}

// A name that stands against none is `iso`.
fn print_again(fault: Fault, out: Output) -> Output {
    match fault.other() {
        Some(_) => print(out, b" is defined or imported a second time"),
        None => print(out, b" is built in, and is neither defined nor imported"),
    }
}

// What the other one is.
pub fn print_other(fault: Fault, out: Output) -> Output {
    let out = print_other_word(fault, out);
    print(out, other(fault.refusal.number, fault.refusal.clause))
}

fn other(number: u8, clause: u8) -> &'static [u8] {
    match number {
        9 => b" stands here first",
        15 => b" holds the OID",
        16 => b" starts the first range that shares a number with it",
        18 => b" is the earlier item",
        20 => table_other(clause),
        21 => b" is the read-create one",
        42 => b" stands here",
        _ => b" is listed here",
    }
}
