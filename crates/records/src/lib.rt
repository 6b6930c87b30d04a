// The records of a module's definitions, ten words each, written in text order.
#![tactic(auto)]

ghost use Rattle.std.specs.Prelude.{◌≡◌, ◌-◌, ◌≤◌, ◌<◌, ◌*◌, length, get_or};
ghost use Rattle.overlay.specs.Writing.{Written};
ghost use Rattle.module_table.specs.Definition.{definitions_in};
ghost use Rattle.records.specs.Record.{offset_in, length_in, syntax_tokens, record_width, record_of, records_before, word_limit, Fits, AllFit};

use definition::{Span, kind};
use index::RecordIndex;
use module_table::{Definition, definition_at};

// How many words a record has.
pub const WIDTH: usize = 10;

// Some bytes of the text: where they start, and how many there are.
#[derive(Clone, Copy)]
struct Bytes {
    offset: u32,
    length: u32,
}

// The place that an array of places has for token i; 0 past the last token.
fn place_at(places: &[u32], i: usize) -> u32
    ensures { result ≡ get_or places.now i 0 }
{
    if i < places.len() {
        return places[i];
    }
    0
}

// How far it is from a place to a later one.
fn distance(from: u32, to: u32) -> u32
    ensures { result ≡ to - from }
{
    if from <= to {
        return to - from;
    }
    0
}

// The bytes from the first token of a span to its last; 0 and 0 where it has no tokens.
fn bytes_of(starts: &[u32], ends: &[u32], span: Span) -> Bytes
    ensures offset { result.offset ≡ offset_in starts.now span }
    ensures length { result.length ≡ length_in starts.now ends.now span }
{
    let from = span.from;
    let to = span.to;
    if from < to {
        let offset = place_at(starts, from);
        return Bytes {
            offset,
            length: distance(offset, place_at(ends, to - 1)),
        };
    }
    Bytes {
        offset: 0,
        length: 0,
    }
}

// The tokens of a definition's syntax; none where its kind has no syntax.
fn syntax_tokens(d: Definition) -> Span
    ensures { result ≡ syntax_tokens d }
{
    if (d.kind == kind::OBJECT as usize) | (d.kind == kind::CONVENTION as usize) {
        return d.syntax;
    }
    Span { from: 0, to: 0 }
}

// A number as a word of a record.
fn word(x: usize) -> u32
    requires { x < word_limit }
    ensures { result ≡ x }
{
    x as u32
}

// The record of a definition.
fn record_of(starts: &[u32], ends: &[u32], d: Definition) -> [u32; WIDTH]
    requires { Fits d }
    ensures { result ≡ record_of starts.now ends.now d }
{
    let name = d.name.0;
    let offset = place_at(starts, name);
    let syntax = bytes_of(starts, ends, syntax_tokens(d));
    [
        word(d.kind),
        offset,
        distance(offset, place_at(ends, name)),
        word(d.start.0),
        word(d.count),
        syntax.offset,
        syntax.length,
        word(d.access),
        word(d.status),
        word(d.class),
    ]
}

// Writes the words of a record to the start of what is left of the record buffer, and answers how many they are.
fn write_record(records: &mut [u32], words: [u32; WIDTH]) -> usize
    requires width { length words ≡ record_width }
    requires room { record_width ≤ length records.old }
    ensures { Written words result records.old records.new }
{
    let mut j = 0;
    while j < WIDTH {
        records[j] = words[j];
        j += 1;
    }
    WIDTH
}

// Writes the records of all definitions in text order, and answers how many words they have.
pub fn write_records(
    starts: &[u32],
    ends: &[u32],
    definitions: &[usize],
    records: &mut [u32],
) -> usize
    requires room { length (definitions_in definitions.now) * record_width ≤ length records.old }
    requires fits { AllFit (definitions_in definitions.now) }
    ensures { Written (records_before starts.now ends.now (definitions_in definitions.now) (length (definitions_in definitions.now))) result records.old records.new }
{
    let count = module_table::count(definitions);
    let mut at = 0;
    let mut k = 0;
    while k < count {
        let words = record_of(starts, ends, definition_at(definitions, RecordIndex(k)));
        let rest = &mut records[at..];
        let written = write_record(rest, words);
        at += written;
        k += 1;
    }
    at
}
