// Of a name that stands from start to end of a text: which symbol it is, whether it is `iso`, whether it is a module that can be
// imported from, and whether it is the one that offers a symbol.
ghost use Rattle.std.specs.Prelude.{◌≡◌, ◌+◌, ◌<◌, length};
ghost use Rattle.lexicon.specs.Word.{same, between, Within};
ghost use Rattle.symbol.specs.Symbol.{symbol_count, symbol_names, symbol_of, is_module, module_name, iso_name, start_in, part, Joined};

use crate::start as start_in;
use crate::table::{
    ISO, MODULE_NAMES, MODULE_STARTS, MODULES, NAME_BYTES, NAME_STARTS, NAMES, SYMBOLS,
};
use index::wide_byte;
use lexicon::word::same_spelling;

// Whether it is the name k of a table of joined names.
fn is_name_of(
    text: &[u8],
    start: usize,
    end: usize,
    names: &[u8],
    offsets: &[u16],
    k: usize,
) -> bool
    requires name { Within text.now start end }
    requires index { k + 1 < length offsets.now }
    requires part { Within names.now (start_in offsets.now k) (start_in offsets.now (k + 1)) }
    ensures { result ≡ same (between text.now start end) (part names.now offsets.now k) }
{
    let from = start_in(offsets, k);
    let to = start_in(offsets, k + 1);
    same_spelling(text, start, end, names, from, to)
}

// The symbol that it is, by the names of the symbols.
fn named_in(
    text: &[u8],
    start: usize,
    end: usize,
    names: &[u8; NAME_BYTES],
    offsets: &[u16; SYMBOLS + 1],
) -> usize
    requires name { Within text.now start end }
    requires names { Joined symbol_names names.now offsets.now }
    ensures { result ≡ symbol_of (between text.now start end) }
{
    let mut k = 0;
    while k < SYMBOLS {
        if is_name_of(text, start, end, names, offsets, k) {
            return k;
        }
        k += 1;
    }
    SYMBOLS
}

// The symbol that it is, or SYMBOLS where it is none.
pub fn symbol_named(text: &[u8], start: usize, end: usize) -> usize
    requires { Within text.now start end }
    ensures { result ≡ symbol_of (between text.now start end) }
{
    named_in(text, start, end, &NAMES, &NAME_STARTS)
}

// Whether it is `iso`.
pub fn names_iso(text: &[u8], start: usize, end: usize) -> bool
    requires { Within text.now start end }
    ensures { result ≡ same (between text.now start end) iso_name }
{
    same_spelling(text, start, end, &ISO, 0, ISO.len())
}

// Whether it is one of the modules that can be imported from.
pub fn names_module(text: &[u8], start: usize, end: usize) -> bool
    requires { Within text.now start end }
    ensures { result ≡ is_module (between text.now start end) }
{
    is_name_of(text, start, end, &MODULE_NAMES, &MODULE_STARTS, 0)
        | is_name_of(text, start, end, &MODULE_NAMES, &MODULE_STARTS, 1)
}

// Whether it is the module that offers symbol k.
pub fn names_source(text: &[u8], start: usize, end: usize, k: usize) -> bool
    requires name { Within text.now start end }
    requires symbol { k < symbol_count }
    ensures { result ≡ same (between text.now start end) (module_name k) }
{
    let module = wide_byte(MODULES[k]);
    is_name_of(text, start, end, &MODULE_NAMES, &MODULE_STARTS, module)
}
