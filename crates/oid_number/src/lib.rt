// What OIDs are made of: the numbers of built-in names and of a definition's own parts, counted, and written to the start of what is
// left of the number buffer; and numbers of the buffer, copied.
#![tactic(auto)]

mod buffer;
mod built_in;
mod part;

pub use buffer::copy_numbers;
pub use built_in::{symbol_length, write_iso, write_symbol};
pub use part::{count_parts, write_parts};
