// The tokens of a text, cut once more where a sentence needs them.
ghost use Rattle.std.specs.Prelude.{◌≡◌, ◌≤◌, ◌<◌, IfSome, length};
ghost use Rattle.token.specs.Table.{longest_text};

use index::wide;
use syntax::Unparsed;
use token::LONGEST_TEXT;

// The classes and the starts of a text's tokens, and how many there are: none, where the text does not cut into tokens.
pub fn collect_tokens(
    text: &[u8],
    classes: &mut [u8; LONGEST_TEXT],
    starts: &mut [u32; LONGEST_TEXT],
) -> usize
    requires classes { length classes.old ≡ longest_text }
    requires starts { length starts.old ≡ longest_text }
    ensures count { result ≤ longest_text }
    ensures classes { length classes.new ≡ longest_text }
    ensures starts { length starts.new ≡ longest_text }
{
    let mut ends = [0u32; LONGEST_TEXT];
    if LONGEST_TEXT < text.len() {
        return 0;
    }
    match syntax::parse(text, classes, starts, &mut ends) {
        Ok(count) => count,
        Err(Unparsed::Underived(count, _)) => count,
        Err(Unparsed::Uncut(_)) => 0,
    }
}

// The tokens of a text: the class of each, and where it starts.
#[derive(Clone, Copy)]
pub struct Tokens<'a> {
    pub classes: &'a [u8],
    pub starts: &'a [u32],
}

impl<'a> Tokens<'a> {
    // The token that starts at a place.
    pub fn at(self, place: usize) -> Option<usize>
        ensures { IfSome result (λ i. i < length self.entry.starts.now) }
    {
        self.starts.iter().position(|start| wide(*start) == place)
    }
}
