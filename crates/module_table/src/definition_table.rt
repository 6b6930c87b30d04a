// The definitions of a module, laid one after the other into words.
ghost use Rattle.std.specs.Prelude.{◌≡◌, ◌+◌, ◌<◌, ◌≤◌, length};
ghost use Rattle.module_table.specs.Definition.{width, words, definition_from, definitions_in, absent, entry, Stored};

use crate::Definition;
use definition::Span;
use index::{NumberIndex, RecordIndex, TokenIndex};

// The most definitions that a module may have.
pub const MOST_DEFINITIONS: usize = 512;

// How many words a definition has.
pub const WIDTH: usize = 22;

// How many definitions the words hold.
pub fn count(definitions: &[usize]) -> usize
    ensures { result ≡ length (definitions_in definitions.now) }
{
    definitions.len() / WIDTH
}

// The definition whose words start at b.
fn definition_from(ws: &[usize], b: usize) -> Definition
    requires { b + width ≤ length ws.now }
    ensures { result ≡ definition_from ws.now b }
{
    Definition {
        kind: ws[b],
        name: TokenIndex(ws[b + 1]),
        status: ws[b + 2],
        access: ws[b + 3],
        default: ws[b + 4],
        syntax: Span {
            from: ws[b + 5],
            to: ws[b + 6],
        },
        index: Span {
            from: ws[b + 7],
            to: ws[b + 8],
        },
        augments: Span {
            from: ws[b + 9],
            to: ws[b + 10],
        },
        objects: Span {
            from: ws[b + 11],
            to: ws[b + 12],
        },
        columns: Span {
            from: ws[b + 13],
            to: ws[b + 14],
        },
        oid: Span {
            from: ws[b + 15],
            to: ws[b + 16],
        },
        start: NumberIndex(ws[b + 17]),
        count: ws[b + 18],
        class: ws[b + 19],
        sequence: ws[b + 20],
        parent: ws[b + 21],
    }
}

// What stands for a definition where there is none.
fn absent() -> Definition
    ensures { result ≡ absent }
{
    Definition {
        kind: 0,
        name: TokenIndex(0),
        status: 0,
        access: 0,
        default: 0,
        syntax: Span { from: 0, to: 0 },
        index: Span { from: 0, to: 0 },
        augments: Span { from: 0, to: 0 },
        objects: Span { from: 0, to: 0 },
        columns: Span { from: 0, to: 0 },
        oid: Span { from: 0, to: 0 },
        start: NumberIndex(0),
        count: 0,
        class: 0,
        sequence: 0,
        parent: 0,
    }
}

// Definition k; past the last, one whose words are all 0.
pub fn definition_at(definitions: &[usize], k: RecordIndex) -> Definition
    ensures { result ≡ entry (definitions_in definitions.now) k.0 }
{
    let at = k.0;
    if at < definitions.len() / WIDTH {
        return definition_from(definitions, at * WIDTH);
    }
    absent()
}

// The words of a definition.
fn words_of(d: Definition) -> [usize; WIDTH]
    ensures { result ≡ words d }
{
    [
        d.kind,
        d.name.0,
        d.status,
        d.access,
        d.default,
        d.syntax.from,
        d.syntax.to,
        d.index.from,
        d.index.to,
        d.augments.from,
        d.augments.to,
        d.objects.from,
        d.objects.to,
        d.columns.from,
        d.columns.to,
        d.oid.from,
        d.oid.to,
        d.start.0,
        d.count,
        d.class,
        d.sequence,
        d.parent,
    ]
}

// Stores definition k.
pub fn store(definitions: &mut [usize], k: RecordIndex, d: Definition)
    requires { k.0 < length (definitions_in definitions.old) }
    ensures { Stored definitions.old k.0 d definitions.new }
{
    let words = words_of(d);
    let b = k.0 * WIDTH;
    let mut j = 0;
    while j < WIDTH {
        definitions[b + j] = words[j];
        j += 1;
    }
}
