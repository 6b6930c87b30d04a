// Where a place stands in a text, for people and editors: its line, its column, and what stands below the line up to it.
#![tactic(auto)]

mod line;
mod margin;
mod window;

pub use line::{Position, line_end, locate};
pub use margin::{is_inside, write_margin};
pub use window::{Part, REACH, shown_part};
