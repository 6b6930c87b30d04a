// Names of a text in trees by their bits, a tree for each key, so that a search for a name passes few names and never more than a name
// has bits. An entry is an index: that of a token, by which the name's start and end are found.
#![tactic(auto)]

ghost use Rattle.std.specs.Prelude.{◌≡◌, ◌<◌, length};
ghost use Rattle.lexicon.specs.Word.{between, Within};
ghost use Rattle.name_tree.specs.Key.{key_count, key_step, name_key};
ghost use Rattle.name_tree.specs.Tree.{Placed, SomeTree, Admits, is_named};

use bit_tree::{child, hang, name_bit};
use index::wide;
use lexicon::word::same_spelling;

// How many keys there are.
pub const KEYS: usize = 1024;

// The key of bytes with one byte more.
fn key_step(key: usize, byte: u8) -> usize
    requires { key < key_count }
    ensures { result ≡ key_step key byte }
{
    (key * 31 + byte as usize) % KEYS
}

// The key of the name from start to end of the text.
fn name_key(text: &[u8], start: usize, end: usize) -> usize
    requires { Within text.now start end }
    ensures { result ≡ name_key (between text.now start end) }
{
    let mut key = 0;
    let mut i = start;
    while i < end {
        key = key_step(key, text[i]);
        i += 1;
    }
    key
}

// Whether entry j has the name from start to end of the text.
fn is_named(text: &[u8], starts: &[u32], ends: &[u32], j: usize, start: usize, end: usize) -> bool
    requires entry { Placed text.now starts.now ends.now j }
    requires name { Within text.now start end }
    ensures { result ≡ is_named text.now starts.now ends.now (between text.now start end) j }
{
    same_spelling(text, wide(starts[j]), wide(ends[j]), text, start, end)
}

// An earlier entry that has the name of entry k, counted from 1. Where none has it is 0, and entry k is put into the tree of its key.
pub fn admit(
    text: &[u8],
    starts: &[u32],
    ends: &[u32],
    heads: &mut [u32; KEYS],
    links: &mut [u32],
    k: usize,
) -> usize
    requires tree { SomeTree text.now starts.now ends.now k heads.old links.old }
    requires name { Placed text.now starts.now ends.now k }
    requires room { (k < length links.old) × (k < 65536) }
    ensures long { length links.new ≡ length links.old }
    ensures admitted { Admits text.now starts.now ends.now k heads.old links.old heads.new links.new result }
{
    let start = wide(starts[k]);
    let end = wide(ends[k]);
    let key = name_key(text, start, end);
    let mut at = wide(heads[key]);
    let mut d = 0;
    while 0 < at {
        let j = at - 1;
        if is_named(text, starts, ends, j, start, end) {
            return at;
        }
        let side = name_bit(text, start, end, d);
        let next = child(links, j, side);
        if next == 0 {
            hang(links, j, side, k);
            return 0;
        }
        at = next + 1;
        d += 1;
    }
    links[k] = 0;
    heads[key] = (k + 1) as u32;
    0
}
