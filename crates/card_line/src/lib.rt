// The lines of the shelf card: one for an answer, and one for each record. They are laid into an output buffer, which the program writes out.
#![tactic(auto)]

ghost use Rattle.std.specs.Prelude.{◌≡◌, ◌+◌, ◌≤◌, length, get_or, take, drop};
ghost use Rattle.buffer.specs.Buffer.{Wrote};
ghost use Rattle.digit.specs.Digits.{digits};
ghost use Rattle.card_line.specs.Line.{field, accepted_line, refused_line, head, pointed, dotted, kind, class, access, status, name, syntax, sub_identifiers};
ghost use Rattle.card_line.specs.Line.{name_field, oid_field, definition_fields, attribute_fields, record_line};
ghost use Rattle.card_line.specs.Line.{longest_oid, field_room, head_room, number_room, pointed_room, oid_room, definition_room};
ghost use Rattle.card_line.specs.Line.{attributes_room, line_room};

use buffer::{copy, put};
use digit::{glyph_of, print_digits};
use reader::PlainRefusal;

const TAB: u8 = 9;

const LINE_END: u8 = 10;

// The words of a record that a line shows.
pub const KIND: usize = 0;

const NAME_OFFSET: usize = 1;

pub const NAME_LENGTH: usize = 2;

const OID_FIRST: usize = 3;

const OID_COUNT: usize = 4;

const SYNTAX_OFFSET: usize = 5;

const SYNTAX_LENGTH: usize = 6;

pub const ACCESS: usize = 7;

pub const STATUS: usize = 8;

pub const CLASS: usize = 9;

// The most bytes of a name, and the most numbers of an OID. A module with more is refused, so nothing is cut; by these bounds a line
// has room whatever the words say.
const LONGEST_NAME: usize = 64;

const LONGEST_OID: usize = 128;

// Writes a number in decimal. Most have one digit, and it is written here.
fn write_decimal(n: u64, out: &mut [u8], at: usize) -> usize
    requires { at + length (digits 10 n) ≤ length out.old }
    ensures { Wrote (digits 10 n) at result out.old out.new }
{
    if n < 10 {
        return put(out, at, glyph_of(n));
    }
    print_digits(n, 10, out, at)
}

// Writes a number and the byte behind it, and answers the place after them.
fn write_field(n: u64, behind: u8, out: &mut [u8], at: usize) -> usize
    requires { at + field_room ≤ length out.old }
    ensures bytes { Wrote (field n behind) at result out.old out.new }
    ensures short { result ≤ at + field_room }
{
    let next = write_decimal(n, out, at);
    put(out, next, behind)
}

// The line of an accepted module.
fn write_accepted(count: usize, out: &mut [u8], at: usize) -> usize
    requires { at + head_room ≤ length out.old }
    ensures bytes { Wrote (accepted_line count) at result out.old out.new }
    ensures short { result ≤ at + head_room }
{
    let next = copy(b"accepted\t", out, at);
    write_field(count as u64, LINE_END, out, next)
}

// The line of a refusal.
fn write_refused(number: u8, place: usize, out: &mut [u8], at: usize) -> usize
    requires { at + head_room ≤ length out.old }
    ensures bytes { Wrote (refused_line number place) at result out.old out.new }
    ensures short { result ≤ at + head_room }
{
    let next = copy(b"refused\t", out, at);
    let next = write_field(number as u64, TAB, out, next);
    write_field(place as u64, LINE_END, out, next)
}

// Writes the card's first line, and answers the place after it.
pub fn write_head(answer: Result<usize, PlainRefusal>, out: &mut [u8], at: usize) -> usize
    requires { at + head_room ≤ length out.old }
    ensures bytes { Wrote (head answer) at result out.old out.new }
    ensures short { result ≤ at + head_room }
{
    match answer {
        Ok(count) => write_accepted(count, out, at),
        Err(refusal) => write_refused(refusal.number, refusal.place.0, out, at),
    }
}

// The `count` entries of a list from `offset` on: those that there are.
fn part<T>(list: &[T], offset: usize, count: usize) -> &[T]
    ensures { result.now ≡ take count (drop offset list.now) }
{
    let rest = &list[offset.min(list.len())..];
    &rest[..count.min(rest.len())]
}

// Writes a sub-identifier, and answers the place after it.
fn write_number(n: u32, out: &mut [u8], at: usize) -> usize
    requires { at + number_room ≤ length out.old }
    ensures bytes { Wrote (digits 10 n) at result out.old out.new }
    ensures short { result ≤ at + number_room }
{
    write_decimal(n as u64, out, at)
}

// Writes numbers, each behind a point.
fn write_pointed(numbers: &[u32], out: &mut [u8], at: usize) -> usize
    requires { at + pointed_room (length numbers.now) ≤ length out.old }
    ensures bytes { Wrote (pointed numbers.now) at result out.old out.new }
    ensures short { result ≤ at + pointed_room (length numbers.now) }
{
    let mut next = at;
    for n in numbers {
        next = put(out, next, b'.');
        next = write_number(*n, out, next);
    }
    next
}

// Writes numbers with points between them, or a hyphen where there are none.
fn write_dotted(numbers: &[u32], out: &mut [u8], at: usize) -> usize
    requires numbers { length numbers.now ≤ longest_oid }
    requires room { at + oid_room ≤ length out.old }
    ensures bytes { Wrote (dotted numbers.now) at result out.old out.new }
    ensures short { result ≤ at + oid_room }
{
    let Some((first, others)) = numbers.split_first() else {
        return put(out, at, b'-');
    };
    let next = write_number(*first, out, at);
    write_pointed(others, out, next)
}

// Writes a name and a tab.
fn write_name(name: &[u8], out: &mut [u8], at: usize) -> usize
    requires { at + length name.now + 1 ≤ length out.old }
    ensures bytes { Wrote (name_field name.now) at result out.old out.new }
    ensures short { result ≡ at + length name.now + 1 }
{
    let next = copy(name, out, at);
    put(out, next, TAB)
}

// Writes an OID and a tab.
fn write_oid_field(numbers: &[u32], out: &mut [u8], at: usize) -> usize
    requires numbers { length numbers.now ≤ longest_oid }
    requires room { at + oid_room + 1 ≤ length out.old }
    ensures bytes { Wrote (oid_field numbers.now) at result out.old out.new }
    ensures short { result ≤ at + oid_room + 1 }
{
    let next = write_dotted(numbers, out, at);
    put(out, next, TAB)
}

// A definition as the reader records it: its words, and the text and the numbers that they tell the places of.
#[derive(Clone, Copy)]
pub struct Record<'t, 'r> {
    pub text: &'t [u8],
    pub words: &'r [u32],
    pub numbers: &'r [u32],
}

impl<'t, 'r> Record<'t, 'r> {
    // A word of the record; 0 past its end.
    pub fn word(self, i: usize) -> u32
        ensures { result ≡ get_or self.entry.words.now i 0 }
    {
        self.words.get(i).copied().unwrap_or(0)
    }

    // 0 is no kind, no class, no access and no status.
    pub fn kind(self) -> u32
        ensures { result ≡ kind self.entry.words.now }
    {
        self.word(KIND)
    }

    pub fn class(self) -> u32
        ensures { result ≡ class self.entry.words.now }
    {
        self.word(CLASS)
    }

    pub fn access(self) -> u32
        ensures { result ≡ access self.entry.words.now }
    {
        self.word(ACCESS)
    }

    pub fn status(self) -> u32
        ensures { result ≡ status self.entry.words.now }
    {
        self.word(STATUS)
    }

    // The bytes of the name.
    pub fn name(self) -> &'t [u8]
        ensures { result.now ≡ name self.entry.text.now self.entry.words.now }
    {
        let length = self.word(NAME_LENGTH) as usize;
        part(
            self.text,
            self.word(NAME_OFFSET) as usize,
            length.min(LONGEST_NAME),
        )
    }

    // The sub-identifiers of the OID.
    fn oid(self) -> &'r [u32]
        ensures { result.now ≡ sub_identifiers self.entry.numbers.now self.entry.words.now }
    {
        let count = self.word(OID_COUNT) as usize;
        part(
            self.numbers,
            self.word(OID_FIRST) as usize,
            count.min(LONGEST_OID),
        )
    }

    // The bytes of the syntax.
    pub fn syntax(self) -> &'t [u8]
        ensures { result.now ≡ syntax self.entry.text.now self.entry.words.now }
    {
        let length = self.word(SYNTAX_LENGTH) as usize;
        part(self.text, self.word(SYNTAX_OFFSET) as usize, length)
    }

    // Writes the OID, or a hyphen.
    pub fn write_oid(self, out: &mut [u8], at: usize) -> usize
        requires { at + oid_room ≤ length out.old }
        ensures bytes { Wrote (dotted (sub_identifiers self.entry.numbers.now self.entry.words.now)) at result out.old out.new }
        ensures short { result ≤ at + oid_room }
    {
        write_dotted(self.oid(), out, at)
    }

    // Writes what the definition is: kind, name and OID.
    fn write_definition(self, out: &mut [u8], at: usize) -> usize
        requires { at + definition_room ≤ length out.old }
        ensures bytes { Wrote (definition_fields self.entry.text.now self.entry.words.now self.entry.numbers.now) at result out.old out.new }
        ensures short { result ≤ at + definition_room }
    {
        let next = write_field(self.kind() as u64, TAB, out, at);
        let next = write_name(self.name(), out, next);
        write_oid_field(self.oid(), out, next)
    }

    // Writes what is said of it: class, access and status.
    fn write_attributes(self, out: &mut [u8], at: usize) -> usize
        requires { at + attributes_room ≤ length out.old }
        ensures bytes { Wrote (attribute_fields self.entry.words.now) at result out.old out.new }
        ensures short { result ≤ at + attributes_room }
    {
        let next = write_field(self.class() as u64, TAB, out, at);
        let next = write_field(self.access() as u64, TAB, out, next);
        write_field(self.status() as u64, LINE_END, out, next)
    }

    // Writes the record's line, and answers the place after it.
    pub fn write(self, out: &mut [u8], at: usize) -> usize
        requires { at + line_room ≤ length out.old }
        ensures bytes { Wrote (record_line self.entry.text.now self.entry.words.now self.entry.numbers.now) at result out.old out.new }
        ensures short { result ≤ at + line_room }
    {
        let next = self.write_definition(out, at);
        self.write_attributes(out, next)
    }
}
