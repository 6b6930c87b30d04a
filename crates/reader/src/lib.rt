// The reader: one call that reads a module's text into records and sub-identifiers, or says which rule it breaks first, and where.
#![tactic(auto)]

ghost use Rattle.std.specs.Prelude.{◌≡◌, ◌≤◌, length, Err};
ghost use Rattle.syntax.specs.Parsed.{parsing};
ghost use Rattle.token.specs.Table.{longest_text};
ghost use Rattle.reader.specs.Buffers.{record_words, number_words, zeros, plain, alone, unparsed, ReadInto, ReadParts, Reads, Examines};

mod module;
mod objects;
mod syntaxes;

use index::Place;
use module::read_derived;
use module_table::MOST_DEFINITIONS;
use oid_tree::MOST_NUMBERS;
use records::WIDTH;
use syntax::{Unparsed, parse};
use token::LONGEST_TEXT;

// How many words the working parts of the record buffer and of the number buffer have.
pub const RECORD_WORDS: usize = MOST_DEFINITIONS * WIDTH;

pub const NUMBER_WORDS: usize = MOST_NUMBERS;

// How many bytes a buffer for a file has: one more than a text may have, to tell a longer one.
pub const FILE_BYTES: usize = LONGEST_TEXT + 1;

// A refusal with all that there is to say of it: its number, which of the rule's clauses, from 1 on, and 0 where it has only one; the
// place; and the place that this one stands against, which is the same where the rule is about one thing.
#[derive(Clone, Copy)]
pub struct Refusal {
    pub number: u8,
    pub clause: u8,
    pub place: Place,
    pub other: Place,
}

// A refusal by its number and its place alone.
#[derive(Clone, Copy)]
pub struct PlainRefusal {
    pub number: u8,
    pub place: Place,
}

// Sets all words to 0.
fn clear(words: &mut [u32])
    ensures { words.new ≡ zeros (length words.old) }
{
    let mut i = 0;
    while i < words.len() {
        words[i] = 0;
        i += 1;
    }
}

// A refusal that is about one place alone.
fn refuse(number: u8, place: Place) -> Result<usize, Refusal>
    ensures { result ≡ alone number place.0 }
{
    Err(Refusal {
        number,
        clause: 0,
        place,
        other: place,
    })
}

// The answer to a text that is not derived.
fn unparsed(fault: Unparsed) -> Result<usize, Refusal>
    ensures { result ≡ unparsed (parsing (Err fault)) }
{
    match fault {
        Unparsed::Underived(_, place) => refuse(7, place),
        Unparsed::Uncut(refusal) => refuse(refusal.cause.number(), refusal.place),
    }
}

// Reads a text within the limit. After a refusal the number buffer holds what was written before it.
fn read_into(text: &[u8], records: &mut [u32], numbers: &mut [u32]) -> Result<usize, Refusal>
    requires text { length text.now ≤ longest_text }
    requires records { record_words ≤ length records.old }
    requires numbers { number_words ≤ length numbers.old }
    ensures { ReadInto text.now result records.old records.new numbers.old numbers.new }
{
    let mut classes = [0u8; LONGEST_TEXT];
    let mut starts = [0u32; LONGEST_TEXT];
    let mut ends = [0u32; LONGEST_TEXT];
    let n = match parse(text, &mut classes, &mut starts, &mut ends) {
        Ok(n) => n,
        Err(fault) => return unparsed(fault),
    };
    read_derived(
        text,
        &classes[..n],
        &starts[..n],
        &ends[..n],
        records,
        numbers,
    )
}

// Reads a text within the limit into the working parts: words that are not used are 0, and after a refusal all are.
fn read_parts(text: &[u8], records: &mut [u32], numbers: &mut [u32]) -> Result<usize, Refusal>
    requires text { length text.now ≤ longest_text }
    requires records { length records.old ≡ record_words }
    requires numbers { length numbers.old ≡ number_words }
    ensures { ReadParts text.now result records.new numbers.new }
{
    clear(records);
    clear(numbers);
    let examined = read_into(text, records, numbers);
    let Ok(_) = examined else {
        clear(numbers);
        return examined;
    };
    examined
}

// Reads a module: so many definitions it has, or why it is refused, with all that there is to say. The record buffer has at least 5,120 words and the number buffer 8,192, or
// the text is refused by 1; a text of more than 65,536 bytes is refused by 2; neither changes a word. Words beyond those never change.
pub fn examine(text: &[u8], records: &mut [u32], numbers: &mut [u32]) -> Result<usize, Refusal>
    ensures { Examines text.now result records.old records.new numbers.old numbers.new }
{
    if records.len() < RECORD_WORDS {
        return refuse(1, Place(0));
    }
    if numbers.len() < NUMBER_WORDS {
        return refuse(1, Place(0));
    }
    if LONGEST_TEXT < text.len() {
        return refuse(2, Place(0));
    }
    read_parts(
        text,
        &mut records[..RECORD_WORDS],
        &mut numbers[..NUMBER_WORDS],
    )
}

// Number and place alone.
fn plain(refusal: Refusal) -> PlainRefusal
    ensures { result ≡ plain refusal }
{
    let place = refusal.place;
    PlainRefusal {
        number: refusal.number,
        place,
    }
}

// Reads a module: what is examined, by number, place and count alone.
pub fn read(text: &[u8], records: &mut [u32], numbers: &mut [u32]) -> Result<usize, PlainRefusal>
    ensures { Reads text.now result records.old records.new numbers.old numbers.new }
{
    examine(text, records, numbers).map_err(plain)
}
