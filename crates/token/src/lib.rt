// Any bytes cut into the tokens of an SMI module, or refused at the right byte. specs/Cut.antt says what the cut of a text is.
#![tactic(auto)]

ghost use Rattle.piece.specs.Found.{numbered};
ghost use Rattle.token.specs.Table.{Held, Lent};

use lexicon::byte::is_blank;
use piece::{Found, Refusal, piece_at};

// The most bytes that a text may have, and so the most tokens.
pub const LONGEST_TEXT: usize = 65536;

// Cuts a text of at most 65,536 bytes into tokens, and answers how many it has. The arrays' first entries become the tokens'
// classes, starts and ends, up to where the cut ends; their other entries stay as they are.
pub fn cut(
    text: &[u8],
    classes: &mut [u8; LONGEST_TEXT],
    starts: &mut [u32; LONGEST_TEXT],
    ends: &mut [u32; LONGEST_TEXT],
) -> Result<usize, Refusal>
    requires { Lent text.now classes.old starts.old ends.old }
    ensures { Held text.now (numbered result) classes.old starts.old ends.old classes.new starts.new ends.new }
{
    let mut at = 0;
    let mut n = 0;
    // A place and a count, not an iterator: a step is of as many bytes as the piece has.
    while at < text.len() {
        // Blanks are passed one by one: most stand alone, and to take them as a piece costs more. An else, not a `continue`, with which
        // the cut took a fifth more instructions.
        if is_blank(text[at]) {
            at += 1;
        } else {
            match piece_at(text, at)? {
                Found::Gap(end) => at = end,
                Found::Token(class, end) => {
                    classes[n] = class;
                    starts[n] = at as u32;
                    ends[n] = end as u32;
                    n += 1;
                    at = end;
                }
            }
        }
    }
    Ok(n)
}
