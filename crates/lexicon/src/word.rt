// The words of the grammar, looked up by a hash of a name's first byte, last byte and length: no two words share a slot, so
// one comparison decides. specs/Word.antt has the words; the table of the code, in table.rt, has them in the same order.
ghost use Rattle.std.specs.Prelude.{◌≡◌, ◌+◌, ◌<◌, ◌≤◌, length, get_or, take, drop, []};
ghost use Rattle.terminal.specs.Terminal.{word_count};
ghost use Rattle.lexicon.specs.Word.{words, same, between, Within, longest_name, some_place, place_in, name_class};
ghost use Rattle.lexicon.specs.Word.{slot_count, SlotWord};

use crate::byte::{CAPITAL_HEX, class_of};
pub use crate::table::LOOKUP_SIZE;
use crate::table::{LOOKUP, ROW_WIDTH, SLOT_COUNT};
use index::wide_byte;
use terminal::FIRST_WORD;

// Whether n bytes of a, from its place i on, are those of b from its place j on. The names of one module mostly begin alike, so the
// last bytes are looked at first.
fn same_part(a: &[u8], i: usize, b: &[u8], j: usize, n: usize) -> bool
    requires in_a { i + n ≤ length a.now }
    requires in_b { j + n ≤ length b.now }
    ensures { result ≡ same (take n (drop i a.now)) (take n (drop j b.now)) }
{
    for k in (0..n).rev() {
        if a[i + k] != b[j + k] {
            return false;
        }
    }
    true
}

// Whether the bytes of a from its place `from` up to `to` are those of b from `start` up to `end`: names are compared here alone.
pub fn same_spelling(a: &[u8], from: usize, to: usize, b: &[u8], start: usize, end: usize) -> bool
    requires in_a { Within a.now from to }
    requires in_b { Within b.now start end }
    ensures { result ≡ same (between a.now from to) (between b.now start end) }
{
    let n = to - from;
    n == end - start && same_part(a, from, b, start, n)
}

// Whether the name is the word k.
fn is_word(name: &[u8], k: usize) -> bool
    requires { k < word_count }
    ensures { result ≡ same name.now (get_or words k []) }
{
    let row = SLOT_COUNT + ROW_WIDTH * k;
    let from = row + 1;
    let to = from + wide_byte(LOOKUP[row]);
    same_spelling(name, 0, name.len(), &LOOKUP, from, to)
}

// The class of the word in a slot of the hash, or one that is no word's.
fn slot_class(slot: usize) -> usize
    requires { slot < slot_count }
    ensures { SlotWord slot result }
{
    wide_byte(LOOKUP[slot])
}

// Which word the name is, if it is one.
fn word_of(name: &[u8]) -> Option<usize>
    requires some { 0 < length name.now }
    requires short { length name.now ≤ longest_name }
    ensures { result ≡ some_place word_count (place_in name.now words) }
{
    let first = name[0] as usize;
    let last = name[name.len() - 1] as usize;
    let class = slot_class((5 * first + 3 * last + 7 * name.len()) % SLOT_COUNT);
    if class < FIRST_WORD {
        return None;
    }
    let k = class - FIRST_WORD;
    is_word(name, k).then_some(k)
}

// The class of a name: a word's own, UPPER or LOWER.
pub fn name_class(name: &[u8]) -> u8
    requires some { 0 < length name.now }
    requires short { length name.now ≤ longest_name }
    ensures { result ≡ name_class name.now }
{
    match word_of(name) {
        Some(k) => (FIRST_WORD + k) as u8,
        None if CAPITAL_HEX <= class_of(name[0]) => terminal::UPPER,
        None => terminal::LOWER,
    }
}
