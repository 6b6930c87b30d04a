// Trees of entries by the bits of what they are compared by: a search passes no more entries than there are bits, whatever the entries
// are. One word for each entry holds its two children, which are later entries.
#![tactic(auto)]

ghost use Rattle.std.specs.Prelude.{◌≡◌, ◌/◌, ◌<◌, length};
ghost use Rattle.lexicon.specs.Word.{between, Within};
ghost use Rattle.bit_tree.specs.Bit.{bit, bit_byte, name_bit};
ghost use Rattle.bit_tree.specs.Tree.{child, only_child, Hung};

use index::wide;

// How many entries a half of a word tells apart.
const HALF: u32 = 65536;

// Bit d of a number, from the lowest on.
pub fn bit(number: u32, d: usize) -> bool
    ensures { result ≡ bit number d }
{
    if d < 32 {
        return (number >> d) % 2 == 1;
    }
    false
}

// The byte that holds bit d of a name of so many bytes: the last one, and then those from the first on. Names are compared from the
// last byte on, so that names which share many bits in this order are mostly told apart at once.
fn bit_byte(size: usize, d: usize) -> usize
    requires { d / 8 < size }
    ensures { (result ≡ bit_byte size d) × (result < size) }
{
    if d < 8 {
        return size - 1;
    }
    d / 8 - 1
}

// Bit d of the name from start to end of the text.
pub fn name_bit(text: &[u8], start: usize, end: usize, d: usize) -> bool
    requires { Within text.now start end }
    ensures { result ≡ name_bit (between text.now start end) d }
{
    let size = end - start;
    if d / 8 < size {
        return bit(text[start + bit_byte(size, d)] as u32, d % 8);
    }
    false
}

// The child of entry j on a side; 0 where there is none.
pub fn child(links: &[u32], j: usize, side: bool) -> usize
    requires { j < length links.now }
    ensures { result ≡ child links.now j side }
{
    let word = links[j];
    if side {
        return wide(word / HALF);
    }
    wide(word % HALF)
}

// The word of an entry whose only child is entry k, on a side.
fn only_child(side: bool, k: usize) -> u32
    requires { k < 65536 }
    ensures { result ≡ only_child side k }
{
    if side {
        return k as u32 * HALF;
    }
    k as u32
}

// Makes entry k, which has no children, the child of entry j on a side where it has none.
pub fn hang(links: &mut [u32], j: usize, side: bool, k: usize)
    requires order { (j < k) × (k < length links.old) × (k < 65536) }
    requires none { child links.old j side ≡ 0 }
    ensures long { length links.new ≡ length links.old }
    ensures hung { Hung j side k links.old links.new }
{
    links[k] = 0;
    links[j] = links[j] + only_child(side, k);
}
