// The syntax of an object or a convention, and its restriction.
ghost use Rattle.std.specs.Prelude.{◌≡◌, ◌≤◌, length, take};
ghost use Rattle.definition.specs.Fields.{restriction_at, syntax_at};

use crate::field::find;
use crate::landmark::class_at;
use crate::{Restriction, Span, Syntax};
use index::TokenIndex;

// The restriction that starts at token r, in a definition that ends at e.
fn restriction_at(classes: &[u8], n: usize, r: usize, e: usize) -> Restriction
    requires enough { n ≤ length classes.now }
    requires early { r ≤ 65538 }
    ensures { result ≡ restriction_at (take n classes.now) r e }
{
    let class = class_at(classes, n, r);
    if class == terminal::LEFT_BRACE {
        let from = r + 1;
        let to = find(classes, n, terminal::RIGHT_BRACE, from, e);
        return Restriction::Enumeration(Span { from, to });
    }
    if class != terminal::LEFT_PAREN {
        return Restriction::Free;
    }
    if class_at(classes, n, r + 1) == terminal::SIZE {
        let from = r + 3;
        let to = find(classes, n, terminal::RIGHT_PAREN, from, e);
        Restriction::Sizes(Span { from, to })
    } else {
        let from = r + 1;
        let to = find(classes, n, terminal::RIGHT_PAREN, from, e);
        Restriction::Ranges(Span { from, to })
    }
}

// The syntax that starts at token s, in a definition that ends at e, by its first word.
pub fn syntax_at(classes: &[u8], n: usize, s: usize, e: usize) -> Syntax
    requires enough { n ≤ length classes.now }
    requires early { s ≤ 65536 }
    ensures { result ≡ syntax_at (take n classes.now) s e }
{
    let word = class_at(classes, n, s);
    if word == terminal::INTEGER {
        Syntax::Integer(restriction_at(classes, n, s + 1, e))
    } else if word == terminal::UPPER {
        Syntax::Named(TokenIndex(s), restriction_at(classes, n, s + 1, e))
    } else if word == terminal::OCTET {
        Syntax::Octets(restriction_at(classes, n, s + 2, e))
    } else if word == terminal::OBJECT {
        Syntax::ObjectIdentifier
    } else if word == terminal::BITS {
        Syntax::Bits(restriction_at(classes, n, s + 1, e))
    } else {
        Syntax::SequenceOf(TokenIndex(s + 2))
    }
}
