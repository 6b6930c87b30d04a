// What bytes and words are: the class of each byte value, and the words of the grammar.
#![tactic(auto)]

pub mod byte;
mod table;
pub mod word;
