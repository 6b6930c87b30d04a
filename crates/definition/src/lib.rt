// What a derived token sequence defines: where each definition starts and ends, what kind it has, and where its fields stand.
// All is read off the classes of the first n tokens; the definitions are in specs/.
#![tactic(auto)]

mod field;
pub mod kind;
mod landmark;
mod syntax_clause;

pub use field::{fields_of, find};
use index::TokenIndex;
pub use landmark::{begins, class_at, definition_end, has_oid, is_lower, is_macro, kind_at};
pub use syntax_clause::syntax_at;

// The tokens from `from` up to, not including, `to`.
#[derive(Clone, Copy)]
pub struct Span {
    pub from: usize,
    pub to: usize,
}

// The restriction of a syntax, with what stands between its brackets.
#[derive(Clone, Copy)]
pub enum Restriction {
    Free,
    Ranges(Span),
    Sizes(Span),
    Enumeration(Span),
}

// A syntax by its first word, with its restriction; a name is that of token TokenIndex.
#[derive(Clone, Copy)]
pub enum Syntax {
    Integer(Restriction),
    Named(TokenIndex, Restriction),
    Octets(Restriction),
    ObjectIdentifier,
    Bits(Restriction),
    SequenceOf(TokenIndex),
}

// The fields of a definition. A field that it lacks is 0, or a span of no tokens at its end.
#[derive(Clone, Copy)]
pub struct Fields {
    pub kind: u8,
    pub status: u8,
    pub access: u8,
    pub syntax: Span,
    pub index: Span,
    pub augments: Span,
    pub has_default: bool,
    pub objects: Span,
    pub columns: Span,
    pub oid: Span,
}
