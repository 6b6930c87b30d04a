// The fields of a definition: of the tokens from its name, d, up to its end, e.
ghost use Rattle.std.specs.Prelude.{◌≡◌, cond, ◌||◌, ◌≤◌, ◌<◌, eqb, length, take, replicate};
ghost use Rattle.index.specs.First.{first};
ghost use Rattle.terminal.specs.Terminal.{terminals, MAX-ACCESS, UNITS};
ghost use Rattle.definition.specs.Fields.{find, nowhere, braced_at, word_at, ends_syntax, syntax_behind, FirstTokens, fields_of};

use crate::landmark::{class_at, has_oid, kind_at};
use crate::{Fields, Span, kind};
use index::wide_byte;
use terminal::TERMINALS;

// The words that fields stand behind, as indices of what is found first.
const ASSIGN: usize = terminal::ASSIGN as usize;

const AUGMENTS: usize = terminal::AUGMENTS as usize;

const DEFVAL: usize = terminal::DEFVAL as usize;

const INDEX: usize = terminal::INDEX as usize;

const MAX_ACCESS: usize = terminal::MAX_ACCESS as usize;

const OBJECTS: usize = terminal::OBJECTS as usize;

const SEQUENCE: usize = terminal::SEQUENCE as usize;

const STATUS: usize = terminal::STATUS as usize;

const SYNTAX: usize = terminal::SYNTAX as usize;

// The first token of this class from a on, below b; b where there is none, and a where a is past b.
pub fn find(classes: &[u8], n: usize, class: u8, a: usize, b: usize) -> usize
    requires { n ≤ length classes.now }
    ensures { result ≡ find (take n classes.now) class a b }
{
    let mut i = a;
    while i < b {
        if class_at(classes, n, i) == class {
            return i;
        }
        i += 1;
    }
    i
}

// Whether a word of this class ends an object's syntax.
fn is_syntax_end(class: u8) -> bool
    ensures { result ≡ (eqb class UNITS || eqb class MAX-ACCESS) }
{
    class == terminal::UNITS || class == terminal::MAX_ACCESS
}

// The first token from a on, below b, that ends an object's syntax.
fn find_syntax_end(classes: &[u8], n: usize, a: usize, b: usize) -> usize
    requires { n ≤ length classes.now }
    ensures { result ≡ first (ends_syntax (take n classes.now)) a b }
{
    let mut i = a;
    while i < b {
        if is_syntax_end(class_at(classes, n, i)) {
            return i;
        }
        i += 1;
    }
    i
}

// The later of two indices.
fn later(a: usize, b: usize) -> usize
    ensures second { a < b → result ≡ b }
    ensures first { b ≤ a → result ≡ a }
{
    if a < b { b } else { a }
}

// The same index for each class.
fn same_for_all(at: usize) -> [usize; TERMINALS]
    ensures { result ≡ replicate terminals at }
{
    [at; TERMINALS]
}

// The first token of each class from d on, below e, in one pass: it goes from the last token to the first, so that what stands there in the
// end is the first of its class.
fn first_tokens(classes: &[u8], n: usize, d: usize, e: usize) -> [usize; TERMINALS]
    requires { n ≤ length classes.now }
    ensures { FirstTokens (take n classes.now) d e result }
{
    let end = later(d, e);
    let mut firsts = same_for_all(end);
    let mut i = end;
    while d < i {
        i -= 1;
        let class = wide_byte(class_at(classes, n, i));
        if class < TERMINALS {
            firsts[class] = i;
        }
    }
    firsts
}

// What stands between the braces after the word at token w, if that is before e.
fn braced_at(classes: &[u8], n: usize, w: usize, e: usize) -> Span
    requires enough { n ≤ length classes.now }
    requires short { e ≤ 65536 }
    ensures { result ≡ braced_at (take n classes.now) w e }
{
    if w < e {
        let from = w + 2;
        let to = find(classes, n, terminal::RIGHT_BRACE, from, e);
        Span { from, to }
    } else {
        Span { from: e, to: e }
    }
}

// The number, from 1 on, of the word after the word at token w, if that is before e, among words that start with `base`; else 0.
fn word_at(classes: &[u8], n: usize, base: u8, w: usize, e: usize) -> u8
    requires enough { n ≤ length classes.now }
    requires short { e ≤ 65536 }
    requires based { 0 < base }
    ensures { result ≡ word_at (take n classes.now) base w e }
{
    if w < e {
        let next = class_at(classes, n, w + 1);
        if next < base { 1 } else { next - base + 1 }
    } else {
        0
    }
}

// What stands behind the word at token w, if that is before e, up to the word that ends an object's syntax.
fn syntax_behind(classes: &[u8], n: usize, w: usize, e: usize) -> Span
    requires enough { n ≤ length classes.now }
    requires short { e ≤ 65536 }
    ensures { result ≡ syntax_behind (take n classes.now) w e }
{
    if w < e {
        let from = w + 1;
        let to = find_syntax_end(classes, n, from, e);
        Span { from, to }
    } else {
        Span { from: e, to: e }
    }
}

// What stands between the braces after the word at token w, in a definition that is to have it.
fn braced_if(wanted: bool, classes: &[u8], n: usize, w: usize, e: usize) -> Span
    requires enough { n ≤ length classes.now }
    requires short { e ≤ 65536 }
    ensures { result ≡ cond wanted (braced_at (take n classes.now) w e) (nowhere e) }
{
    if wanted {
        braced_at(classes, n, w, e)
    } else {
        Span { from: e, to: e }
    }
}

// All of them, of the definition whose name is token d and whose end is e.
pub fn fields_of(classes: &[u8], n: usize, d: usize, e: usize) -> Fields
    requires enough { n ≤ length classes.now }
    requires early { d ≤ 65536 }
    requires short { e ≤ 65536 }
    ensures { result ≡ fields_of (take n classes.now) d e }
{
    let firsts = first_tokens(classes, n, d, e);
    let kind = kind_at(classes, n, d);
    let status = word_at(classes, n, terminal::CURRENT, firsts[STATUS], e);
    let access = word_at(classes, n, terminal::NOT_ACCESSIBLE, firsts[MAX_ACCESS], e);
    let syntax = syntax_behind(classes, n, firsts[SYNTAX], e);
    let index = braced_at(classes, n, firsts[INDEX], e);
    let augments = braced_at(classes, n, firsts[AUGMENTS], e);
    let has_default = firsts[DEFVAL] < e;
    let objects = braced_at(classes, n, firsts[OBJECTS], e);
    let is_sequence = kind == kind::SEQUENCE_TYPE;
    let columns = braced_if(is_sequence, classes, n, firsts[SEQUENCE], e);
    let oid = braced_if(has_oid(kind as usize), classes, n, firsts[ASSIGN], e);
    Fields {
        kind,
        status,
        access,
        syntax,
        index,
        augments,
        has_default,
        objects,
        columns,
        oid,
    }
}
