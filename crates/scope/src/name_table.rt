// The names of a module's definitions, laid into words for the look-up: of each a tag, and its token. A search compares tags, and looks at
// spellings only where these are the same.
ghost use Rattle.std.specs.Prelude.{◌≡◌, ◌*◌, ◌-◌, ◌≤◌, length, get_or};
ghost use Rattle.lexicon.specs.Word.{between, Within};
ghost use Rattle.token.specs.Cut.{meanings_in};
ghost use Rattle.module_table.specs.Definition.{definitions_in};
ghost use Rattle.module_table.specs.Module.{most_definitions};
ghost use Rattle.outline.specs.Outline.{outline};
ghost use Rattle.name_tree.specs.Tree.{Placed, part_at};
ghost use Rattle.scope.specs.Token.{classes_of, TokensHeld};
ghost use Rattle.scope.specs.Tag.{name_words, name_tag, NamesHeld};

use crate::Name;
use index::{RecordIndex, wide};
use module_table::{count, definition_at};

// How many words a name has.
pub const NAME_WORDS: usize = 2;

// The byte of a name that stands so many before its end; its first byte where it has not as many.
fn byte_before_end(text: &[u8], name: Name, back: usize) -> u8
    requires name { Within text.now name.start name.end }
    requires back { 1 ≤ back }
    ensures { result ≡ get_or (between text.now name.start name.end) (length (between text.now name.start name.end) - back) 0 }
{
    let start = name.start;
    let end = name.end;
    if start == end {
        return 0;
    }
    if end - start < back {
        return text[start];
    }
    text[end - back]
}

// The tag of a name.
pub fn name_tag(text: &[u8], name: Name) -> u32
    requires { Within text.now name.start name.end }
    ensures { result ≡ name_tag (between text.now name.start name.end) }
{
    let n = name.end - name.start;
    let last = byte_before_end(text, name, 1);
    let second = byte_before_end(text, name, 2);
    let third = byte_before_end(text, name, 3);
    (n % 256) as u32 * 16777216 + last as u32 * 65536 + second as u32 * 256 + third as u32
}

// The tag of the name of token i.
fn tag_at(text: &[u8], starts: &[u32], ends: &[u32], i: usize) -> u32
    requires { Placed text.now starts.now ends.now i }
    ensures { result ≡ name_tag (part_at text.now starts.now ends.now i) }
{
    name_tag(
        text,
        Name {
            start: wide(starts[i]),
            end: wide(ends[i]),
        },
    )
}

// Lays the names of all definitions into words.
pub fn collect_names(
    text: &[u8],
    starts: &[u32],
    ends: &[u32],
    definitions: &[usize],
    names: &mut [u32],
)
    requires tokens { TokensHeld text.now (classes_of (meanings_in text.now)) starts.now ends.now }
    requires outlined { definitions_in definitions.now ≡ outline (classes_of (meanings_in text.now)) }
    requires room { length names.old ≡ length (definitions_in definitions.now) * name_words }
    requires few { length (definitions_in definitions.now) ≤ most_definitions }
    ensures { NamesHeld (meanings_in text.now) names.new }
{
    let count = count(definitions);
    let mut k = 0;
    while k < count {
        let d = definition_at(definitions, RecordIndex(k));
        let token = d.name.0;
        names[k * NAME_WORDS] = tag_at(text, starts, ends, token);
        names[k * NAME_WORDS + 1] = token as u32;
        k += 1;
    }
}
