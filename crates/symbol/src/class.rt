// The classes of syntaxes, by the numbers of "Records"; specs/Symbol.antt has the same under the same names.

pub const INTEGER: u8 = 1;

pub const ENUMERATED: u8 = 2;

pub const OCTETS: u8 = 3;

pub const OBJECT_IDENTIFIER: u8 = 4;

pub const BITS: u8 = 5;

pub const COUNTER32: u8 = 7;

pub const GAUGE32: u8 = 8;

pub const UNSIGNED32: u8 = 9;

pub const COUNTER64: u8 = 12;
