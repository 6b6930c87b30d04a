// The words of SMI for a definition; specs/Words.antt has the same under the same names.
ghost use Rattle.std.specs.Prelude.{◌≡◌};
ghost use Rattle.module_table.specs.Definition.{definitions_in};
ghost use Rattle.object_tree.specs.Words.{is_object, is_notification, is_table, is_row, is_given, is_indexed, numbered, number_at};

use definition::Span;
use index::{RecordIndex, TokenIndex};
use module_table::{Definition, Lead, definition_at, lead_at};

// The kinds that the rules name.
const OBJECT: usize = 4;

const NOTIFICATION: usize = 7;

// The classes that they name.
pub const COUNTER32: usize = 7;

pub const COUNTER64: usize = 12;

pub const TABLE: usize = 13;

pub const ROW: usize = 14;

// The numbers of access words.
pub const NOT_ACCESSIBLE: usize = 1;

pub const ACCESSIBLE_FOR_NOTIFY: usize = 2;

pub const READ_ONLY: usize = 3;

pub const READ_WRITE: usize = 4;

pub const READ_CREATE: usize = 5;

// Whether a definition is an object.
pub fn is_object(d: Definition) -> bool
    ensures { result ≡ is_object d }
{
    d.kind == OBJECT
}

// Whether it is a notification.
pub fn is_notification(d: Definition) -> bool
    ensures { result ≡ is_notification d }
{
    d.kind == NOTIFICATION
}

// Whether it is a table.
pub fn is_table(d: Definition) -> bool
    ensures { result ≡ is_table d }
{
    (d.kind == OBJECT) & (d.class == TABLE)
}

// Whether it is a row.
pub fn is_row(d: Definition) -> bool
    ensures { result ≡ is_row d }
{
    (d.kind == OBJECT) & (d.class == ROW)
}

// Whether a list stands in a definition.
pub fn is_given(s: Span) -> bool
    ensures { result ≡ is_given s }
{
    s.from < s.to
}

// Whether a definition has INDEX or AUGMENTS.
pub fn is_indexed(d: Definition) -> bool
    ensures { result ≡ is_indexed d }
{
    (d.index.from < d.index.to) | (d.augments.from < d.augments.to)
}

// The definition of a number, counted from 1; for 0, and past the last, one whose words are all 0.
pub fn numbered(definitions: &[usize], number: usize) -> Definition
    ensures { result ≡ numbered (definitions_in definitions.now) number }
{
    if number == 0 {
        return definition_at(definitions, RecordIndex(definitions.len()));
    }
    definition_at(definitions, RecordIndex(number - 1))
}

// The number, counted from 1, of the definition that the name at token i leads to; 0 where it leads to none.
pub fn number_at(values: &[u32], i: TokenIndex) -> usize
    ensures { result ≡ number_at values.now i.0 }
{
    match lead_at(values, i) {
        Lead::Iso => 0,
        Lead::Import(_) => 0,
        Lead::Definition(d) => d.0 + 1,
        Lead::Nothing => 0,
    }
}
