// The terminals of the grammar, numbered once: the class that each token has. specs/Terminal.antt has the same
// numbers under the same names; a contract that cites both holds only where they agree.
#![tactic(auto)]

// 0 or a positive number.
pub const NUMBER: u8 = 0;

// A negative number.
pub const NEGATIVE: u8 = 1;

// Bytes between quotes.
pub const TEXT: u8 = 2;

// Hex digits between apostrophes, then H.
pub const HEX: u8 = 3;

// `::=`.
pub const ASSIGN: u8 = 4;

// `..`.
pub const DOTS: u8 = 5;

// The marks of one byte: a byte of one of them has the same number as its class.

// `{`.
pub const LEFT_BRACE: u8 = 6;

// `}`.
pub const RIGHT_BRACE: u8 = 7;

// `(`.
pub const LEFT_PAREN: u8 = 8;

// `)`.
pub const RIGHT_PAREN: u8 = 9;

// `,`.
pub const COMMA: u8 = 10;

// `;`.
pub const SEMICOLON: u8 = 11;

// `|`.
pub const BAR: u8 = 12;

// Names, from here to the end: lower, Upper and the words.

// A name with a lower-case first letter that is no status word and no access word.
pub const LOWER: u8 = 13;

// A name with an upper-case first letter that is no capital word of the grammar.
pub const UPPER: u8 = 14;

// The words, from here to the end. The status words and the access words, in the grammar's order; each of them is also a *lower*.

pub const CURRENT: u8 = 15;

pub const DEPRECATED: u8 = 16;

pub const OBSOLETE: u8 = 17;

pub const NOT_ACCESSIBLE: u8 = 18;

pub const ACCESSIBLE_FOR_NOTIFY: u8 = 19;

pub const READ_ONLY: u8 = 20;

pub const READ_WRITE: u8 = 21;

pub const READ_CREATE: u8 = 22;

// The capital words of the grammar. A new word comes last, so that no other number moves.

pub const AUGMENTS: u8 = 23;

pub const BEGIN: u8 = 24;

pub const BITS: u8 = 25;

pub const CONTACT_INFO: u8 = 26;

pub const DEFINITIONS: u8 = 27;

pub const DEFVAL: u8 = 28;

pub const DESCRIPTION: u8 = 29;

pub const DISPLAY_HINT: u8 = 30;

pub const END: u8 = 31;

pub const FROM: u8 = 32;

pub const IDENTIFIER: u8 = 33;

pub const IMPLIED: u8 = 34;

pub const IMPORTS: u8 = 35;

pub const INDEX: u8 = 36;

pub const INTEGER: u8 = 37;

pub const LAST_UPDATED: u8 = 38;

pub const MAX_ACCESS: u8 = 39;

pub const MODULE_IDENTITY: u8 = 40;

pub const NOTIFICATION_TYPE: u8 = 41;

pub const OBJECT: u8 = 42;

pub const OBJECT_IDENTITY: u8 = 43;

pub const OBJECT_TYPE: u8 = 44;

pub const OBJECTS: u8 = 45;

pub const OCTET: u8 = 46;

pub const OF: u8 = 47;

pub const ORGANIZATION: u8 = 48;

pub const REFERENCE: u8 = 49;

pub const REVISION: u8 = 50;

pub const SEQUENCE: u8 = 51;

pub const SIZE: u8 = 52;

pub const STATUS: u8 = 53;

pub const STRING: u8 = 54;

pub const SYNTAX: u8 = 55;

pub const TEXTUAL_CONVENTION: u8 = 56;

pub const UNITS: u8 = 57;

// How many there are.
pub const TERMINALS: usize = 58;

// The first of the words, and how many words there are.
pub const FIRST_WORD: usize = CURRENT as usize;

pub const WORDS: usize = TERMINALS - FIRST_WORD;
