// What the programs read: their words, the names and bytes of files, and the lines of a list. Nothing here knows of SMI.
#![tactic(auto)]

mod argument;
mod file;
mod line;

pub use argument::{Named, arguments, count_arguments, each_file, read_argument};
pub use file::read_file;
pub use line::{LineError, Lines, NO_LINE, Part, each_line};

// More bytes than a buffer has room for.
#[derive(Clone, Copy)]
pub struct TooLong;
