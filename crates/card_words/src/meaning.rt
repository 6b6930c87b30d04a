// The words of a record's numbers, as document 01 and the RFCs have them. 0 is what a definition does not have.

static KINDS: [&[u8]; 8] = [
    b"-",
    b"identity",
    b"plain OID",
    b"object identity",
    b"object",
    b"textual convention",
    b"SEQUENCE type",
    b"notification",
];

static CLASSES: [&[u8]; 15] = [
    b"-",
    b"integer",
    b"enumerated",
    b"octets",
    b"OID",
    b"BITS",
    b"IpAddress",
    b"Counter32",
    b"Gauge32",
    b"Unsigned32",
    b"TimeTicks",
    b"Opaque",
    b"Counter64",
    b"table",
    b"row",
];

static ACCESSES: [&[u8]; 6] = [
    b"-",
    b"not-accessible",
    b"accessible-for-notify",
    b"read-only",
    b"read-write",
    b"read-create",
];

static STATUSES: [&[u8]; 4] = [b"-", b"current", b"deprecated", b"obsolete"];

pub fn kind(number: u32) -> &'static [u8] {
    word_of(&KINDS, number)
}

pub fn class(number: u32) -> &'static [u8] {
    word_of(&CLASSES, number)
}

pub fn access(number: u32) -> &'static [u8] {
    word_of(&ACCESSES, number)
}

pub fn status(number: u32) -> &'static [u8] {
    word_of(&STATUSES, number)
}

// The word of a number; a hyphen where it has none.
fn word_of(words: &'static [&'static [u8]], number: u32) -> &'static [u8] {
    words.get(number as usize).copied().unwrap_or(b"-")
}
