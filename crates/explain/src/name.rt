// Names that are not known, or are of another kind than is needed.
ghost use Rattle.std.specs.Prelude.{◌<◌};
ghost use Rattle.symbol.specs.Symbol.{symbol_count};

use crate::fault::Fault;
use crate::import::{print_source_of, symbol_at};
use crate::tokens::{Tokens, collect_tokens};
use definition::kind;
use output::{Output, print};
use symbol::Sort;
use token::LONGEST_TEXT;

// Behind a name that is neither defined nor imported: what is needed, and which module offers a symbol of that name that would serve.
pub fn print_unknown(fault: Fault, out: Output) -> Output {
    let clause = fault.refusal.clause;
    let out = print(out, b" is neither defined nor imported");
    let out = print(out, need(clause));
    match symbol_at(fault.text, fault.place()) {
        Some(k) => print_offer(k, clause, out),
        None => out,
    }
}

// Which module offers symbol k, where it would serve.
fn print_offer(k: usize, clause: u8, out: Output) -> Output
    requires { k < symbol_count }
{
    if would_serve(k, clause) {
        print_source_of(k, out)
    } else {
        out
    }
}

// Behind a name of another kind: what it is, and what is needed.
pub fn print_misfit(fault: Fault, out: Output) -> Output {
    let out = print_what(fault, out);
    print(out, need(fault.refusal.clause))
}

// What is needed where the name stands, by the clause. A convention's type is one of SNMPv2-SMI's by rule 19, whatever else is a type.
fn need(clause: u8) -> &'static [u8] {
    match clause {
        1 => b", and a macro is needed here",
        2 => b", and the SYNTAX of a convention needs a type of SNMPv2-SMI",
        3 => b", and SYNTAX needs a type",
        4 => b", and a column needs a type other than a SEQUENCE type",
        5 => b", and an OID is needed here",
        6 => b", and INDEX needs an object",
        7 => b", and AUGMENTS needs an object",
        8 => b", and OBJECTS needs an object",
        10 => b", and OF needs a SEQUENCE type",
        _ => b", and SEQUENCE needs an object",
    }
}

// Whether symbol k is of the kind needed, so that it is worth importing.
fn would_serve(k: usize, clause: u8) -> bool
    requires { k < symbol_count }
{
    match symbol::sort_of(k) {
        Sort::Macro => clause == 1,
        Sort::Oid => clause == 5,
        Sort::Type(_) => type_serves(k, clause),
    }
}

// Whether symbol k, a type, does.
fn type_serves(k: usize, clause: u8) -> bool {
    match clause {
        2 => symbol::is_smi_type(k),
        3 | 4 => true,
        _ => false,
    }
}

// What a name is, by where it is introduced; `iso` is introduced nowhere.
fn print_what(fault: Fault, out: Output) -> Output {
    match fault.other() {
        Some(other) => print(out, what_stands(fault.text, other)),
        None => print(out, b" is a built-in OID"),
    }
}

// What the name is that is introduced at a place.
fn what_stands(text: &[u8], place: usize) -> &'static [u8] {
    match kind_at(text, place) {
        Some(kind::IDENTITY) => b" is the module's identity",
        Some(kind::PLAIN) => b" is a plain OID",
        Some(kind::OBJECT_IDENTITY) => b" is an object identity",
        Some(kind::OBJECT) => b" is an object",
        Some(kind::CONVENTION) => b" is a textual convention",
        Some(kind::SEQUENCE_TYPE) => b" is a SEQUENCE type",
        Some(kind::NOTIFICATION) => b" is a notification",
        _ => what_is_imported(text, place),
    }
}

// The kind of the definition whose name stands at a place; none where a name is imported there.
fn kind_at(text: &[u8], place: usize) -> Option<u8> {
    let mut classes = [0u8; LONGEST_TEXT];
    let mut starts = [0u32; LONGEST_TEXT];
    let count = collect_tokens(text, &mut classes, &mut starts);
    let tokens = Tokens {
        classes: &classes[..count],
        starts: &starts[..count],
    };
    let i = tokens.at(place)?;
    if definition::begins(&classes, count, i) {
        Some(definition::kind_at(&classes, count, i))
    } else {
        None
    }
}

// What the symbol is that is imported at a place.
fn what_is_imported(text: &[u8], place: usize) -> &'static [u8] {
    match symbol_at(text, place) {
        Some(k) if 0 < symbol::type_class(k) => b" is an imported type",
        _ => b" is an imported OID",
    }
}
