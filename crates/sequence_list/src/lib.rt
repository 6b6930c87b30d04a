// The objects that SEQUENCE types name. Each list is walked once, for its type and not for each row of the type, and what the rules on
// rows ask of it is noted in arrays by the numbers of types and objects.
#![tactic(auto)]

mod listed;
mod name;
mod verdict;

pub use listed::collect_listed;
use module_table::MOST_DEFINITIONS;
pub use name::{columns_of, named_at, type_of};
pub use verdict::{ALIKE, MIXED, REPEATING, collect_verdicts, first_repeated, first_stranger};

// How many entries such an array has: one for each number of a definition, counted from 1, and one for 0.
pub const PLACES: usize = MOST_DEFINITIONS + 1;
