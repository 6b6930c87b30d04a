// The spellings of labels: where they stand, and when two are the same.
ghost use Rattle.std.specs.Prelude.{◌≡◌, ltb};
ghost use Rattle.lexicon.specs.Word.{between, same, Within};
ghost use Rattle.index.specs.Choice.{when◌then◌else◌};
ghost use Rattle.enumeration.specs.Item.{spelling_in, spelled, has_label};

use definition::is_lower;
use index::wide;
use lexicon::word::same_spelling;
use sub_type::{class_at, word_at};

// A part of the text, from start up to end.
#[derive(Clone, Copy)]
pub struct Part {
    pub start: usize,
    pub end: usize,
}

// The smaller of two numbers.
pub fn lesser(a: usize, b: usize) -> usize
    ensures { result ≡ (when ltb a b then a else b) }
{
    if a < b {
        return a;
    }
    b
}

// Where the spelling of token i stands in the text: a part that would reach past the text ends there.
pub fn part_of(text: &[u8], starts: &[u32], ends: &[u32], i: usize) -> Part
    ensures inside { Within text.now result.start result.end }
    ensures spells { between text.now result.start result.end ≡ spelled (spelling_in text.now starts.now ends.now) i }
{
    let end = lesser(wide(word_at(ends, i)), text.len());
    let start = lesser(wide(word_at(starts, i)), end);
    Part { start, end }
}

// Whether tokens i and j have the same spelling.
fn same_label(text: &[u8], starts: &[u32], ends: &[u32], i: usize, j: usize) -> bool
    ensures { result ≡ same (spelled (spelling_in text.now starts.now ends.now) i) (spelled (spelling_in text.now starts.now ends.now) j) }
{
    let a = part_of(text, starts, ends, i);
    let b = part_of(text, starts, ends, j);
    same_spelling(text, a.start, a.end, text, b.start, b.end)
}

// Whether token j is a label with the spelling of token i.
pub fn has_label(
    text: &[u8],
    starts: &[u32],
    ends: &[u32],
    classes: &[u8],
    i: usize,
    j: usize,
) -> bool
    ensures { result ≡ has_label (spelling_in text.now starts.now ends.now) classes.now i j }
{
    is_lower(class_at(classes, j)) & same_label(text, starts, ends, j, i)
}
