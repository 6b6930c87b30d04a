// The imports of a module.
ghost use Rattle.std.specs.Prelude.{◌≡◌, ◌≤◌, ◌<◌, length};
ghost use Rattle.token.specs.Cut.{meanings_in};
ghost use Rattle.symbol.specs.Symbol.{symbol_of};
ghost use Rattle.definition.specs.Landmark.{class_at};
ghost use Rattle.definition.specs.Fields.{find};
ghost use Rattle.scope.specs.Token.{spelled, TokensHeld};
ghost use Rattle.scope.specs.Import.{imports_end, can_be_imported, is_symbol, is_import, source, offered};

use crate::spelling::name_at;
use definition::{is_lower, is_macro};
use index::TokenIndex;
use symbol::SYMBOLS;
use symbol::part::names_source;

// Where the first import stands, behind `Upper DEFINITIONS ::= BEGIN IMPORTS`.
const IMPORTS_START: usize = 5;

// The class of token i, and 0 past the last.
fn class_at(classes: &[u8], i: usize) -> u8
    ensures { result ≡ class_at classes.now i }
{
    if i < classes.len() { classes[i] } else { 0 }
}

// The first token of this class from a on; as many as there are tokens where there is none.
fn find(classes: &[u8], class: u8, a: usize) -> usize
    requires { a ≤ length classes.now }
    ensures { result ≡ find classes.now class a (length classes.now) }
{
    definition::find(classes, classes.len(), class, a, classes.len())
}

// Where the imports end.
pub fn imports_end(classes: &[u8]) -> usize
    ensures { result ≡ imports_end classes.now }
{
    if classes.len() < IMPORTS_START {
        return classes.len();
    }
    if class_at(classes, IMPORTS_START - 1) == terminal::IMPORTS {
        return find(classes, terminal::SEMICOLON, IMPORTS_START);
    }
    IMPORTS_START
}

// Whether a token of this class can be imported.
fn can_be_imported(class: u8) -> bool
    ensures { result ≡ can_be_imported class }
{
    if class == terminal::UPPER {
        return true;
    }
    if is_lower(class) {
        return true;
    }
    is_macro(class)
}

// Whether token i, one of the imports, is a symbol, and not the module after FROM.
fn is_symbol(classes: &[u8], i: usize) -> bool
    requires { 1 ≤ i }
    ensures { result ≡ is_symbol classes.now i }
{
    if class_at(classes, i - 1) == terminal::FROM {
        return false;
    }
    can_be_imported(class_at(classes, i))
}

// Whether token i is an imported symbol of a module whose imports end at `end`.
pub fn is_import(classes: &[u8], end: usize, i: usize) -> bool
    requires { end ≡ imports_end classes.now }
    ensures { result ≡ is_import classes.now i }
{
    if i < IMPORTS_START {
        return false;
    }
    if end <= i {
        return false;
    }
    is_symbol(classes, i)
}

// The module that the symbol at token i is imported from: its name stands behind the next FROM.
pub fn source(classes: &[u8], i: usize) -> usize
    requires few { length classes.now ≤ 65536 }
    requires index { i ≤ length classes.now }
    ensures { result ≡ source classes.now i }
{
    find(classes, terminal::FROM, i) + 1
}

// Whether the module named offers the symbol at token i, which is symbol k.
pub fn is_offered(
    text: &[u8],
    classes: &[u8],
    starts: &[u32],
    ends: &[u32],
    i: TokenIndex,
    k: usize,
) -> bool
    requires tokens { TokensHeld text.now classes.now starts.now ends.now }
    requires index { i.0 < length classes.now }
    requires symbol { k ≡ symbol_of (spelled (meanings_in text.now) i.0) }
    ensures { result ≡ offered (meanings_in text.now) i.0 }
{
    if SYMBOLS <= k {
        return false;
    }
    let module = source(classes, i.0);
    if classes.len() <= module {
        return false;
    }
    let name = name_at(classes, starts, ends, TokenIndex(module));
    names_source(text, name.start, name.end, k)
}
