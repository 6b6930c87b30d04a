// Where definitions stand: the landmarks among the classes of a module's first n tokens.
ghost use Rattle.std.specs.Prelude.{◌≡◌, ◌≤◌, ◌<◌, length, take};
ghost use Rattle.definition.specs.Landmark.{class_at, is_lower, is_defining, is_macro, before_object_identifier, begins, closes};
ghost use Rattle.definition.specs.Landmark.{definition_end, kind_at, has_oid};

use crate::kind;

// The class of token i, and 0 past the last.
pub fn class_at(classes: &[u8], n: usize, i: usize) -> u8
    requires { n ≤ length classes.now }
    ensures { result ≡ class_at (take n classes.now) i }
{
    if i < n { classes[i] } else { 0 }
}

// Whether a token of this class is a *lower*.
pub fn is_lower(class: u8) -> bool
    ensures { result ≡ is_lower class }
{
    class == terminal::LOWER || (terminal::CURRENT <= class && class <= terminal::READ_CREATE)
}

// Whether it is a macro whose name stands after a definition's name.
fn is_defining(class: u8) -> bool
    ensures { result ≡ is_defining class }
{
    class == terminal::MODULE_IDENTITY
        || (class == terminal::OBJECT_IDENTITY
            || (class == terminal::OBJECT_TYPE || class == terminal::NOTIFICATION_TYPE))
}

// Whether it is a macro word.
pub fn is_macro(class: u8) -> bool
    ensures { result ≡ is_macro class }
{
    is_defining(class) || class == terminal::TEXTUAL_CONVENTION
}

// Whether token i stands directly before OBJECT IDENTIFIER `::=`.
fn before_object_identifier(classes: &[u8], n: usize, i: usize) -> bool
    requires enough { n ≤ length classes.now }
    requires early { i ≤ 65536 }
    ensures { result ≡ before_object_identifier (take n classes.now) i }
{
    class_at(classes, n, i + 1) == terminal::OBJECT
        && (class_at(classes, n, i + 2) == terminal::IDENTIFIER
            && class_at(classes, n, i + 3) == terminal::ASSIGN)
}

// Whether a definition starts at token i, which is its name.
pub fn begins(classes: &[u8], n: usize, i: usize) -> bool
    requires enough { n ≤ length classes.now }
    requires early { i ≤ 65536 }
    ensures { result ≡ begins (take n classes.now) i }
{
    let class = class_at(classes, n, i);
    let next = class_at(classes, n, i + 1);
    if is_lower(class) {
        return is_defining(next) || before_object_identifier(classes, n, i);
    }
    class == terminal::UPPER && next == terminal::ASSIGN
}

// Whether a definition that started before token i ends there.
fn closes(classes: &[u8], n: usize, i: usize) -> bool
    requires enough { n ≤ length classes.now }
    requires early { i ≤ 65536 }
    ensures { result ≡ closes (take n classes.now) i }
{
    class_at(classes, n, i) == terminal::END || begins(classes, n, i)
}

// Where the definition whose name is token d ends: at END or where the next one starts, and at the last token where neither comes.
pub fn definition_end(classes: &[u8], n: usize, d: usize) -> usize
    requires enough { n ≤ length classes.now }
    requires few { n ≤ 65536 }
    requires inside { d < n }
    ensures { result ≡ definition_end (take n classes.now) d }
{
    let mut i = d + 1;
    while i < n - 1 {
        if closes(classes, n, i) {
            return i;
        }
        i += 1;
    }
    i
}

// The kind of the definition whose name is token d, by the words after the name.
pub fn kind_at(classes: &[u8], n: usize, d: usize) -> u8
    requires enough { n ≤ length classes.now }
    requires early { d ≤ 65536 }
    ensures { result ≡ kind_at (take n classes.now) d }
{
    let word = class_at(classes, n, d + 1);
    if word == terminal::MODULE_IDENTITY {
        kind::IDENTITY
    } else if word == terminal::OBJECT {
        kind::PLAIN
    } else if word == terminal::OBJECT_IDENTITY {
        kind::OBJECT_IDENTITY
    } else if word == terminal::OBJECT_TYPE {
        kind::OBJECT
    } else if word == terminal::NOTIFICATION_TYPE {
        kind::NOTIFICATION
    } else if class_at(classes, n, d + 2) == terminal::TEXTUAL_CONVENTION {
        kind::CONVENTION
    } else {
        kind::SEQUENCE_TYPE
    }
}

// Whether a definition of this kind has an OID.
pub fn has_oid(kind: usize) -> bool
    ensures { result ≡ has_oid kind }
{
    kind <= kind::OBJECT as usize || kind == kind::NOTIFICATION as usize
}
