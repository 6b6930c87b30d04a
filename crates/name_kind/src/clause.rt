// Which use of a name a token is, as the clause of refusals 41 and 42 tells it.
ghost use Rattle.std.specs.Prelude.{◌≡◌, ◌≤◌, length, take};
ghost use Rattle.name_kind.specs.Clause.{type_clause, object_clause, use_clause};

use crate::need::{Need, class_before, enclosing_at, need_at};

// Of a type that is no object's, by the class before it.
fn type_clause(before: u8) -> u8
    ensures { result ≡ type_clause before }
{
    if before == terminal::SYNTAX {
        return 2;
    }
    4
}

// Of an object in the braces after this word.
fn object_clause(word: u8) -> u8
    ensures { result ≡ object_clause word }
{
    if word == terminal::INDEX {
        return 6;
    }
    if word == terminal::AUGMENTS {
        return 7;
    }
    if word == terminal::OBJECTS {
        return 8;
    }
    9
}

// Of token i. It is asked of a token at fault alone, since it looks for the braces that the token is in.
pub fn use_clause(classes: &[u8], n: usize, i: usize) -> u8
    requires { n ≤ length classes.now }
    ensures { result ≡ use_clause (take n classes.now) i }
{
    let word = enclosing_at(classes, n, i);
    let need = need_at(classes, n, word, i);
    match need {
        Need::NoName => 0,
        Need::Macro => 1,
        Need::TypeName => type_clause(class_before(classes, n, i, 1)),
        Need::ObjectType => 3,
        Need::Head => 5,
        Need::Object => object_clause(word),
        Need::Sequence => 10,
    }
}
