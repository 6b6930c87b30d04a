// The words of a line, and the numbers, octets and flags that they write. Nothing here knows of SMI, and nothing reads or prints.
#![tactic(auto)]

mod flag;
mod heading;
mod hex;
mod number;
mod octets;
mod word;

pub use flag::read_flag;
pub use number::{NumberError, read_natural, read_number};
pub use octets::read_octets;
pub use word::{Place, count_words, part, word_at};
