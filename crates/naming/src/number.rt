// The magnitudes of numbers.
ghost use Rattle.std.specs.Prelude.{◌≡◌, ◌<◌, nat_abs, length};
ghost use Rattle.lexicon.specs.Word.{between, Within};
ghost use Rattle.piece.specs.Decimal.{decimal, capped};
ghost use Rattle.token.specs.Token.{tok, value_of};
ghost use Rattle.token.specs.Cut.{meanings_in, said};
ghost use Rattle.token.specs.Law.{Sound};
ghost use Rattle.scope.specs.Token.{TokensHeld};
ghost use Rattle.naming.specs.Told.{NumbersFilled};

use index::wide;
use piece::more;
use scope::imports_end;

// The value of the digits from start to end of the text, or one more than the largest number where it is larger.
fn digits_value(text: &[u8], start: usize, end: usize) -> u64
    requires { Within text.now start end }
    ensures { result ≡ capped (decimal (between text.now start end)) }
{
    let mut i = start;
    let mut value = 0;
    while i < end {
        value = more(value, text[i]);
        i += 1;
    }
    value
}

// The magnitude of a token of this class, from start to end of the text; 0 where it is no number. A negative's first byte is the hyphen.
fn magnitude(text: &[u8], class: u8, start: usize, end: usize) -> u32
    requires { Sound text.now (tok class start end (between text.now start end)) }
    ensures { result ≡ nat_abs (value_of class (between text.now start end)) }
{
    if class == terminal::NUMBER {
        return digits_value(text, start, end) as u32;
    }
    if class == terminal::NEGATIVE {
        return digits_value(text, start + 1, end) as u32;
    }
    0
}

// The magnitude of token i; 0 where it is no number.
pub fn magnitude_at(text: &[u8], classes: &[u8], starts: &[u32], ends: &[u32], i: usize) -> u32
    requires tokens { TokensHeld text.now classes.now starts.now ends.now }
    requires index { i < length classes.now }
    ensures { result ≡ nat_abs (said (meanings_in text.now) i).value }
{
    magnitude(text, classes[i], wide(starts[i]), wide(ends[i]))
}

// Stores the numbers of the imports, where none can stand by the grammar.
pub fn fill_numbers(text: &[u8], classes: &[u8], starts: &[u32], ends: &[u32], values: &mut [u32])
    requires tokens { TokensHeld text.now classes.now starts.now ends.now }
    requires values { length values.old ≡ length classes.now }
    ensures long { length values.new ≡ length values.old }
    ensures filled { NumbersFilled (meanings_in text.now) values.old values.new }
{
    let end = imports_end(classes);
    let mut i = 0;
    while i < end {
        if classes[i] < terminal::LOWER {
            values[i] = magnitude_at(text, classes, starts, ends, i);
            i += 1;
        } else {
            i += 1;
        }
    }
}
