// The class of each definition, and the SEQUENCE type of each table and row, found once and stored with the definition.
#![tactic(auto)]

mod class_of;
mod fill;
mod type_name;

pub use fill::collect_classes;
pub use type_name::{has_syntax, is_indirect, lead_of, syntax_in};

// The classes that no built-in type has.
pub const TABLE: usize = 13;

pub const ROW: usize = 14;

// The class of a convention that breaches refusal 19, and of what names one: it never matters.
pub const UNSETTLED: usize = 15;
