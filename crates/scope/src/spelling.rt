// Where the spelling of a token stands in the text.
ghost use Rattle.std.specs.Prelude.{◌≡◌, ◌<◌, length};
ghost use Rattle.lexicon.specs.Word.{between, Within};
ghost use Rattle.name_tree.specs.Tree.{Placed, is_named};
ghost use Rattle.scope.specs.Token.{name_in};

use crate::Name;
use index::{TokenIndex, wide};
use lexicon::word::same_spelling;

// The name of token i; of a token that is no name, nothing.
pub fn name_at(classes: &[u8], starts: &[u32], ends: &[u32], i: TokenIndex) -> Name
    requires { (i.0 < length classes.now) × (i.0 < length starts.now) × (i.0 < length ends.now) }
    ensures { result ≡ name_in classes.now starts.now ends.now i.0 }
{
    let at = i.0;
    let start = wide(starts[at]);
    if classes[at] < terminal::LOWER {
        return Name { start, end: start };
    }
    Name {
        start,
        end: wide(ends[at]),
    }
}

// Whether token i, which is a name, has this one.
pub fn is_named(text: &[u8], starts: &[u32], ends: &[u32], i: usize, name: Name) -> bool
    requires token { Placed text.now starts.now ends.now i }
    requires name { Within text.now name.start name.end }
    ensures { result ≡ is_named text.now starts.now ends.now (between text.now name.start name.end) i }
{
    same_spelling(
        text,
        wide(starts[i]),
        wide(ends[i]),
        text,
        name.start,
        name.end,
    )
}
