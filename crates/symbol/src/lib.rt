// The built-in symbols: what each is; in part.rt, which one a name is, and the module that offers it. specs/Symbol.antt has the symbols;
// those of the code stand in table.rt, in the same order.
#![tactic(auto)]

ghost use Rattle.std.specs.Prelude.{◌≡◌, ◌+◌, ◌<◌, length, get_or};
ghost use Rattle.symbol.specs.Symbol.{symbol_count, what_is, numbers_of, sort_of, type_class, class_of_sort, is_smi_type, start_in, part};

pub mod class;
pub mod part;
mod table;

use crate::table::{MODULES, NUMBER_STARTS, NUMBERS, SORTS};
use index::wide_u16;

// How many symbols there are: what `symbol_named` answers where a name is none.
pub const SYMBOLS: usize = table::SYMBOLS;

// What a symbol is: a name with an OID, a type with its class, or a macro.
#[derive(Clone, Copy)]
pub enum Sort {
    Oid,
    Type(u8),
    Macro,
}

// Where the list k of a table of joined lists starts; after the last, where that one ends.
fn start(starts: &[u16], k: usize) -> usize
    requires { k < length starts.now }
    ensures { result ≡ start_in starts.now k }
{
    wide_u16(starts[k])
}

// What symbol k is.
pub fn sort_of(k: usize) -> Sort
    requires { k < symbol_count }
    ensures { result ≡ sort_of (what_is k) }
{
    SORTS[k]
}

// The class of a type; 0 for what is no type.
fn class_of(sort: Sort) -> u8
    ensures { result ≡ class_of_sort sort }
{
    match sort {
        Sort::Oid => 0,
        Sort::Type(class) => class,
        Sort::Macro => 0,
    }
}

// The class of symbol k as a type; 0 where it is none, and past the last symbol.
pub fn type_class(k: usize) -> u8
    ensures { result ≡ type_class (what_is k) }
{
    if SYMBOLS <= k {
        return 0;
    }
    class_of(sort_of(k))
}

// Whether symbol k is one of SMI's eight types.
pub fn is_smi_type(k: usize) -> bool
    ensures { result ≡ is_smi_type k }
{
    if SYMBOLS <= k {
        return false;
    }
    MODULES[k] == 0 && 0 < type_class(k)
}

// How many numbers the OID of symbol k has; 0 where it has none.
pub fn oid_length(k: usize) -> usize
    requires { k < symbol_count }
    ensures { result ≡ length (numbers_of k) }
{
    let from = start(&NUMBER_STARTS, k);
    let to = start(&NUMBER_STARTS, k + 1);
    to - from
}

// Number j of the OID of symbol k.
pub fn oid_number(k: usize, j: usize) -> u32
    requires symbol { k < symbol_count }
    requires number { j < length (numbers_of k) }
    ensures { result ≡ get_or (numbers_of k) j 0 }
{
    let from = start(&NUMBER_STARTS, k);
    NUMBERS[from + j]
}
