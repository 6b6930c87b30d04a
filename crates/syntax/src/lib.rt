// A text as a derived sequence of tokens, or its first refusal of 3 to 7 with its place.
#![tactic(auto)]

ghost use Rattle.std.specs.Prelude.{◌≡◌, length};
ghost use Rattle.grammar.specs.Automaton.{run};
ghost use Rattle.grammar.specs.Table.{module_automaton};
ghost use Rattle.token.specs.Table.{Lent};
ghost use Rattle.syntax.specs.Parsing.{Parses, Tabled};
ghost use Rattle.syntax.specs.Parsed.{parsing};
ghost use Rattle.syntax.specs.Placing.{placed};

use index::Place;
use piece::Refusal;
use token::LONGEST_TEXT;

// Why a text is not parsed. specs/Parsing.antt gives each case its number and place.
#[derive(Clone, Copy)]
pub enum Unparsed {
    // The text cuts into so many tokens, and the grammar does not derive them: refusal 7.
    Underived(usize, Place),
    // The text does not cut into tokens: refusals 3 to 6.
    Uncut(Refusal),
}

impl From<Refusal> for Unparsed {
    ghost use Rattle.syntax.specs.declared.Unparsed.{Unparsed};

    ghost from_gives = { λ refusal error. error ≡ Unparsed.Uncut refusal };

    fn from(refusal: Refusal) -> Unparsed {
        Unparsed::Uncut(refusal)
    }
}

// Cuts a text of at most 65,536 bytes into tokens and reads these by the grammar, which derives so many. The arrays become its
// token table.
pub fn parse(
    text: &[u8],
    classes: &mut [u8; LONGEST_TEXT],
    starts: &mut [u32; LONGEST_TEXT],
    ends: &mut [u32; LONGEST_TEXT],
) -> Result<usize, Unparsed>
    requires { Lent text.now classes.old starts.old ends.old }
    ensures right { Parses text.now (parsing result) }
    ensures table { Tabled text.now (parsing result) classes.new starts.new ends.new }
{
    let count = token::cut(text, classes, starts, ends)?;
    judge(&classes[..count], &starts[..count], text.len())
}

// What the grammar says of a text of `size` bytes that cuts into tokens of these classes and starts. The place of the end is the
// text's length.
fn judge(classes: &[u8], starts: &[u32], size: usize) -> Result<usize, Unparsed>
    requires { length starts.now ≡ length classes.now }
    ensures { parsing result ≡ placed (length classes.now) starts.now size (run module_automaton classes.now) }
{
    let count = classes.len();
    match grammar::recognise(classes) {
        Ok(()) => Ok(count),
        Err(fault) => {
            let place = starts.get(fault.0).map_or(size, |&start| start as usize);
            Err(Unparsed::Underived(count, Place(place)))
        }
    }
}
