// What a name leads to: `iso`, an import, a definition, or nothing.
ghost use Rattle.std.specs.Prelude.{◌≡◌, ◌<◌, ◌≤◌, length};
ghost use Rattle.index.specs.First.{first};
ghost use Rattle.lexicon.specs.Word.{between, Within};
ghost use Rattle.token.specs.Cut.{meanings_in};
ghost use Rattle.scope.specs.Token.{classes_of, TokensHeld};
ghost use Rattle.scope.specs.Lead.{imports_name, defines_name, defined_as, leads_to};
ghost use Rattle.definition.specs.Landmark.{definitions};
ghost use Rattle.scope.specs.Tag.{SoughtIn, NamesHeld};
ghost use Rattle.scope.specs.Held.{import_word, found_word, ImportsHeld, Distinct, ScopeHeld};

use crate::name_table::NAME_WORDS;
use crate::spelling::is_named;
use crate::{Name, Sought};
use index::{RecordIndex, wide};
use module_table::{Lead, lead_in};
use symbol::part::names_iso;

// How many definitions are looked at first, from the one that the last name led to: the columns of a SEQUENCE stand in order, and one
// head serves many definitions.
const NEAR: usize = 32;

// Whether token i of the imports, with this value, is a symbol of the name.
fn imports_name(text: &[u8], starts: &[u32], ends: &[u32], value: u32, i: usize, name: Name) -> bool
    requires tokens { TokensHeld text.now (classes_of (meanings_in text.now)) starts.now ends.now }
    requires value { value ≡ import_word (meanings_in text.now) i }
    requires name { Within text.now name.start name.end }
    ensures { result ≡ imports_name (meanings_in text.now) (between text.now name.start name.end) i }
{
    if value == 0 {
        return false;
    }
    is_named(text, starts, ends, i, name)
}

// The value of the first import of the name; 0 where none has it.
fn find_import(text: &[u8], starts: &[u32], ends: &[u32], values: &[u32], name: Name) -> u32
    requires tokens { TokensHeld text.now (classes_of (meanings_in text.now)) starts.now ends.now }
    requires values { ImportsHeld (meanings_in text.now) values.now }
    requires name { Within text.now name.start name.end }
    ensures { result ≡ found_word (meanings_in text.now) (between text.now name.start name.end) }
{
    let mut i = 0;
    while i < values.len() {
        if imports_name(text, starts, ends, values[i], i, name) {
            return values[i];
        }
        i += 1;
    }
    0
}

// Whether definition k has the name: most have another tag.
fn defines_name(
    text: &[u8],
    starts: &[u32],
    ends: &[u32],
    names: &[u32],
    k: RecordIndex,
    sought: Sought,
) -> bool
    requires tokens { TokensHeld text.now (classes_of (meanings_in text.now)) starts.now ends.now }
    requires names { NamesHeld (meanings_in text.now) names.now }
    requires index { k.0 < length (definitions (classes_of (meanings_in text.now))) }
    requires sought { SoughtIn text.now sought }
    ensures { result ≡ defines_name (meanings_in text.now) (between text.now sought.name.start sought.name.end) k.0 }
{
    let at = k.0 * NAME_WORDS;
    if names[at] != sought.tag {
        return false;
    }
    let name = sought.name;
    is_named(text, starts, ends, wide(names[at + 1]), name)
}

// Some definitions: from one up to, not including, another.
#[derive(Clone, Copy)]
struct Stretch {
    from: RecordIndex,
    to: RecordIndex,
}

// The first definition of a stretch that has the name; its end where none has it.
fn search_in(
    text: &[u8],
    starts: &[u32],
    ends: &[u32],
    names: &[u32],
    sought: Sought,
    stretch: Stretch,
) -> RecordIndex
    requires tokens { TokensHeld text.now (classes_of (meanings_in text.now)) starts.now ends.now }
    requires names { NamesHeld (meanings_in text.now) names.now }
    requires sought { SoughtIn text.now sought }
    requires ordered { stretch.from.0 ≤ stretch.to.0 }
    requires inside { stretch.to.0 ≤ length (definitions (classes_of (meanings_in text.now))) }
    ensures { result.0 ≡ first (defines_name (meanings_in text.now) (between text.now sought.name.start sought.name.end)) stretch.from.0 stretch.to.0 }
{
    let to = stretch.to.0;
    let mut k = stretch.from.0;
    while k < to {
        if defines_name(text, starts, ends, names, RecordIndex(k), sought) {
            return RecordIndex(k);
        }
        k += 1;
    }
    RecordIndex(k)
}

// Where the first search for a name ends that starts at this definition, of so many.
fn end_near(near: usize, count: usize) -> usize
    requires { near < count }
    ensures { (near ≤ result) × (result ≤ count) }
{
    if count - near < NEAR {
        return count;
    }
    near + NEAR
}

// The definition of the name, of which there is at most one; as many as there are where none has it. It is looked for near where it is
// likely to stand, and then among all.
fn find_definition(
    text: &[u8],
    starts: &[u32],
    ends: &[u32],
    names: &[u32],
    sought: Sought,
) -> RecordIndex
    requires tokens { TokensHeld text.now (classes_of (meanings_in text.now)) starts.now ends.now }
    requires names { NamesHeld (meanings_in text.now) names.now }
    requires distinct { Distinct (meanings_in text.now) }
    requires sought { SoughtIn text.now sought }
    ensures { result.0 ≡ defined_as (meanings_in text.now) (between text.now sought.name.start sought.name.end) }
{
    let from = sought.near;
    let count = names.len() / NAME_WORDS;
    if from.0 < count {
        let to = end_near(from.0, count);
        let k = search_in(
            text,
            starts,
            ends,
            names,
            sought,
            Stretch {
                from,
                to: RecordIndex(to),
            },
        );
        if k.0 < to {
            return k;
        }
    }
    search_in(
        text,
        starts,
        ends,
        names,
        sought,
        Stretch {
            from: RecordIndex(0),
            to: RecordIndex(count),
        },
    )
}

// What the name leads to, by the values of the imports and by the names of the definitions.
pub fn leads_to(
    text: &[u8],
    starts: &[u32],
    ends: &[u32],
    values: &[u32],
    names: &[u32],
    sought: Sought,
) -> Lead
    requires scope { ScopeHeld text.now starts.now ends.now values.now names.now }
    requires sought { SoughtIn text.now sought }
    ensures { result ≡ leads_to (meanings_in text.now) (between text.now sought.name.start sought.name.end) }
{
    let name = sought.name;
    if names_iso(text, name.start, name.end) {
        return Lead::Iso;
    }
    let word = find_import(text, starts, ends, values, name);
    if word != 0 {
        return lead_in(word);
    }
    let d = find_definition(text, starts, ends, names, sought);
    if d.0 < names.len() / NAME_WORDS {
        return Lead::Definition(d);
    }
    Lead::Nothing
}
