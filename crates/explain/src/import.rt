// Symbols that are imported and not offered.
ghost use Rattle.std.specs.Prelude.{◌<◌, IfSome};
ghost use Rattle.symbol.specs.Symbol.{symbol_count};

use crate::fault::Fault;
use crate::source::within;
use crate::word::{print_word, word_end};
use output::{Output, print};

// Behind the symbol: that its module is not built in, or does not offer it.
pub fn print_import(fault: Fault, out: Output) -> Output {
    match fault.refusal.clause {
        1 => print_unoffered(fault, out),
        _ => print_foreign(fault, out),
    }
}

fn print_foreign(fault: Fault, out: Output) -> Output {
    let out = print(out, b" is imported from ");
    let out = print_word(fault.text, fault.against(), out);
    print(
        out,
        b", and this reader knows SNMPv2-SMI and SNMPv2-TC alone",
    )
}

fn print_unoffered(fault: Fault, out: Output) -> Output {
    let out = print(out, b" is not offered by ");
    let out = print_word(fault.text, fault.against(), out);
    let out = print(out, b", from which it is imported");
    match symbol_at(fault.text, fault.place()) {
        Some(k) => print_source_of(k, out),
        None => out,
    }
}

// The built-in symbol of the name at a place.
pub fn symbol_at(text: &[u8], place: usize) -> Option<usize>
    ensures { IfSome result (λ k. k < symbol_count) }
{
    let at = within(text, place);
    let end = word_end(text, at);
    let k = symbol::part::symbol_named(text, at, end);
    if k < symbol::SYMBOLS { Some(k) } else { None }
}

// Which of the two modules offers symbol k.
pub fn print_source_of(k: usize, out: Output) -> Output
    requires { k < symbol_count }
{
    if is_of_smi(k) {
        print(out, b"; SNMPv2-SMI offers it")
    } else {
        print(out, b"; SNMPv2-TC offers it")
    }
}

// Whether SNMPv2-SMI offers symbol k.
fn is_of_smi(k: usize) -> bool
    requires { k < symbol_count }
{
    let name = b"SNMPv2-SMI";
    symbol::part::names_source(name, 0, name.len(), k)
}
