// What each token of a module is used as, where it is used as a name. All of it is told of the tokens' classes.
ghost use Rattle.std.specs.Prelude.{◌≡◌, ◌+◌, ◌-◌, ◌≤◌, length, take};
ghost use Rattle.definition.specs.Landmark.{class_at};
ghost use Rattle.name_kind.specs.Need.{enclosing, upper_need, lists_objects, lower_need, need_at};

use definition::{class_at, is_lower, is_macro};

// What a token is used as.
#[derive(Clone, Copy)]
pub enum Need {
    // It is no use of a name.
    NoName,
    Macro,
    // A type, other than a SEQUENCE type.
    TypeName,
    // The type of an object, which may be a SEQUENCE type.
    ObjectType,
    // The head of an OID.
    Head,
    Object,
    // A SEQUENCE type, after OF.
    Sequence,
}

// The class of the token k before token i; that of token 0 where there is no such token.
pub fn class_before(classes: &[u8], n: usize, i: usize, k: usize) -> u8
    requires { n ≤ length classes.now }
    ensures { result ≡ class_at (take n classes.now) (i - k) }
{
    if i < k {
        class_at(classes, n, 0)
    } else {
        class_at(classes, n, i - k)
    }
}

// What an *Upper* at token i is used as.
fn upper_need(classes: &[u8], n: usize, i: usize) -> Need
    requires { n ≤ length classes.now }
    ensures { result ≡ upper_need (take n classes.now) i }
{
    let before = class_before(classes, n, i, 1);
    if before == terminal::OF {
        Need::Sequence
    } else if before == terminal::SYNTAX {
        if class_before(classes, n, i, 2) == terminal::OBJECT_TYPE {
            Need::ObjectType
        } else {
            Need::TypeName
        }
    } else if is_lower(before) {
        Need::TypeName
    } else {
        Need::NoName
    }
}

// Whether the braces after this word hold names of objects.
fn lists_objects(word: u8) -> bool
    ensures { result ≡ lists_objects word }
{
    word == terminal::INDEX
        || (word == terminal::AUGMENTS || (word == terminal::OBJECTS || word == terminal::SEQUENCE))
}

// What a *lower* at token i, in braces after this word, is used as.
fn lower_need(classes: &[u8], n: usize, word: u8, i: usize) -> Need
    requires { n ≤ length classes.now }
    ensures { result ≡ lower_need (take n classes.now) word i }
{
    if lists_objects(word) {
        return Need::Object;
    }
    if word != terminal::ASSIGN {
        return Need::NoName;
    }
    let before = class_before(classes, n, i, 1);
    if before == terminal::LEFT_BRACE {
        Need::Head
    } else {
        Need::NoName
    }
}

// What token i is used as; `word` stands directly before the braces that it is in.
pub fn need_at(classes: &[u8], n: usize, word: u8, i: usize) -> Need
    requires enough { n ≤ length classes.now }
    requires inside { word ≡ enclosing (take n classes.now) i }
    ensures { result ≡ need_at (take n classes.now) i }
{
    let class = class_at(classes, n, i);
    if is_macro(class) {
        Need::Macro
    } else if class == terminal::UPPER {
        upper_need(classes, n, i)
    } else if is_lower(class) {
        lower_need(classes, n, word, i)
    } else {
        Need::NoName
    }
}

// The word directly before the braces that token i + 1 is in, of that for token i.
pub fn next_enclosing(classes: &[u8], n: usize, word: u8, i: usize) -> u8
    requires enough { n ≤ length classes.now }
    requires inside { word ≡ enclosing (take n classes.now) i }
    ensures { result ≡ enclosing (take n classes.now) (i + 1) }
{
    let class = class_at(classes, n, i);
    if class == terminal::LEFT_BRACE {
        class_before(classes, n, i, 1)
    } else if class == terminal::RIGHT_BRACE {
        terminal::TERMINALS as u8
    } else {
        word
    }
}

// The word directly before the braces that token i is in, no terminal where it is in none.
pub fn enclosing_at(classes: &[u8], n: usize, i: usize) -> u8
    requires { n ≤ length classes.now }
    ensures { result ≡ enclosing (take n classes.now) i }
{
    let mut word = terminal::TERMINALS as u8;
    let mut j = 0;
    while j < i {
        word = next_enclosing(classes, n, word, j);
        j += 1;
    }
    word
}
