// A module as the rules from 12 on see it, in lent slices: the classes of its tokens, the value of each token, its definitions, and
// the sub-identifiers of their OIDs. A slice carries its length. What a slice holds is read off it by total functions, so that no
// rule asks anything of what it is lent; specs/ has the same in the paper's words.
#![tactic(auto)]

mod definition_table;
mod lead_word;

use definition::Span;
pub use definition_table::{MOST_DEFINITIONS, WIDTH, count, definition_at, store};
use index::{NumberIndex, RecordIndex, TokenIndex};
pub use lead_word::{lead_at, lead_in, word_for};

// What a name leads to: `iso`, the built-in symbol of that index that is imported, the definition of that index, or nothing.
#[derive(Clone, Copy)]
pub enum Lead {
    Iso,
    Import(usize),
    Definition(RecordIndex),
    Nothing,
}

// A definition. A number that it lacks is 0, and a span that it lacks has no tokens; what a later stage finds is 0 before it.
#[derive(Clone, Copy)]
pub struct Definition {
    // from 1 to 7, as "Records" numbers the kinds
    pub kind: usize,
    // the token of its name
    pub name: TokenIndex,
    // status from 1 to 3, access from 1 to 5
    pub status: usize,
    pub access: usize,
    // 1 where it has DEFVAL
    pub default: usize,
    // its syntax without the word SYNTAX
    pub syntax: Span,
    // what stands between the braces after INDEX, AUGMENTS, OBJECTS, SEQUENCE and `::=`
    pub index: Span,
    pub augments: Span,
    pub objects: Span,
    pub columns: Span,
    pub oid: Span,
    // where its sub-identifiers start in the number buffer, and how many it has
    pub start: NumberIndex,
    pub count: usize,
    // its class, from 1 to 14
    pub class: usize,
    // of a table or a row, the SEQUENCE type, by its number among the definitions, counted from 1
    pub sequence: usize,
    // of an object, the object whose OID is its own less the last number, likewise
    pub parent: usize,
}
