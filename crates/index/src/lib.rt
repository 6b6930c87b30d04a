// Places and indices, each with a type of its own, so that they can't be mixed; in specs/ and proofs/ the laws of searches by
// index and of walks that every layer cites.
#![tactic(auto)]

ghost use Rattle.std.specs.Prelude.{◌≡◌, ◌<◌};

// A place: a byte offset in the text.
#[derive(Clone, Copy)]
pub struct Place(pub usize);

// The index of a token in the text's token list; the number of tokens stands for the end.
#[derive(Clone, Copy)]
pub struct TokenIndex(pub usize);

// The index of a record: of a definition of the module, in text order.
#[derive(Clone, Copy)]
pub struct RecordIndex(pub usize);

// An index into the number buffer, which holds the sub-identifiers.
#[derive(Clone, Copy)]
pub struct NumberIndex(pub usize);

// A word of a table, as the index that it is.
pub fn wide(word: u32) -> usize
    ensures { result ≡ word }
{
    word as usize
}

// A word of two bytes, likewise.
pub fn wide_u16(word: u16) -> usize
    ensures { result ≡ word }
{
    word as usize
}

// A byte, likewise.
pub fn wide_byte(byte: u8) -> usize
    ensures { (result ≡ byte) × (result < 256) }
{
    byte as usize
}
