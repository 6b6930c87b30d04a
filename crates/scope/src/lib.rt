// The scope of a module: its imports, and what a name leads to. All of it is told of what the tokens say.
#![tactic(auto)]

mod import;
mod lookup;
mod name_table;
mod spelling;

pub use import::{imports_end, is_import, is_offered, source};
use index::RecordIndex;
pub use lookup::leads_to;
pub use name_table::{NAME_WORDS, collect_names, name_tag};
pub use spelling::{is_named, name_at};

// A name: the part of the text from start up to end.
#[derive(Clone, Copy)]
pub struct Name {
    pub start: usize,
    pub end: usize,
}

// A name to look up, with its tag, and the definition at which to start: most names lead near to where the last one led.
#[derive(Clone, Copy)]
pub struct Sought {
    pub name: Name,
    pub tag: u32,
    pub near: RecordIndex,
}
