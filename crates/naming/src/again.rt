// Refusal 9: names that are introduced a second time, or are `iso`.
ghost use Rattle.std.specs.Prelude.{◌≡◌, true, ◌+◌, ◌<◌, length, None};
ghost use Rattle.rule.specs.Rule.{judge_one};
ghost use Rattle.token.specs.Cut.{meanings_in};
ghost use Rattle.name_tree.specs.Tree.{NameTree};
ghost use Rattle.scope.specs.Token.{classes_of, TokensHeld};
ghost use Rattle.scope.specs.Import.{imports_end};
ghost use Rattle.scope.specs.Lead.{introduces};
ghost use Rattle.naming.specs.Rules.{introduced_again};
ghost use Rattle.naming.specs.Told.{Introduces};

use definition::begins;
use index::{TokenIndex, wide};
use name_tree::{KEYS, admit};
use rule::Finding;
use scope::{imports_end, is_import};
use symbol::part::names_iso;

// Whether token i introduces a name, in a module whose imports end at `end`.
pub fn introduces(classes: &[u8], end: usize, i: usize) -> bool
    requires end { end ≡ imports_end classes.now }
    requires early { i < 65536 }
    ensures { result ≡ introduces classes.now i }
{
    if is_import(classes, end, i) {
        return true;
    }
    begins(classes, classes.len(), i)
}

// The token that token i, which introduces a name, stands against: one before it that introduces the same, or itself where the name is
// `iso`. The names of those before it are in trees; a name that is new is put into them.
fn introduction(
    text: &[u8],
    starts: &[u32],
    ends: &[u32],
    heads: &mut [u32; KEYS],
    links: &mut [u32],
    i: usize,
) -> Option<usize>
    requires tokens { TokensHeld text.now (classes_of (meanings_in text.now)) starts.now ends.now }
    requires index { (i < length starts.now) × (i < length links.old) × (i < 65536) }
    requires name { introduces (classes_of (meanings_in text.now)) i ≡ true }
    requires names { NameTree (introduces (classes_of (meanings_in text.now))) text.now starts.now ends.now i heads.old links.old }
    ensures long { length links.new ≡ length links.old }
    ensures told { Introduces (meanings_in text.now) i result }
    ensures grown { result ≡ None → NameTree (introduces (classes_of (meanings_in text.now))) text.now starts.now ends.now (i + 1) heads.new links.new }
{
    if names_iso(text, wide(starts[i]), wide(ends[i])) {
        return Some(i);
    }
    let at = admit(text, starts, ends, heads, links, i);
    if at == 0 {
        return None;
    }
    Some(at - 1)
}

// Refusal 9, at the first token that breaks it. The name of each that keeps it is put into a tree, in lent links.
pub fn judge_introduced(
    text: &[u8],
    classes: &[u8],
    starts: &[u32],
    ends: &[u32],
    links: &mut [u32],
) -> Result<(), Finding>
    requires tokens { TokensHeld text.now classes.now starts.now ends.now }
    requires links { length links.old ≡ length classes.now }
    ensures long { length links.new ≡ length links.old }
    ensures judged { result ≡ judge_one (introduced_again (meanings_in text.now)) }
{
    let end = imports_end(classes);
    let mut heads = [0u32; KEYS];
    for i in 0..classes.len() {
        if !introduces(classes, end, i) {
            continue;
        }
        if let Some(j) = introduction(text, starts, ends, &mut heads, links, i) {
            return Err(Finding {
                number: 9,
                clause: 0,
                token: TokenIndex(i),
                other: TokenIndex(j),
            });
        }
    }
    Ok(())
}
