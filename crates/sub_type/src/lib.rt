// The numbers of a module, and the ranges and sizes of a syntax: refusal 17 on one restriction.
#![tactic(auto)]

mod number;
mod range;

pub use number::{
    class_at, end_in, is_less, is_outside, is_same_number, less, range_limits, size_limits, word_at,
};
pub use range::{high_token, judge_limits, starts_range};

// What numbers may be: none is allowed; those of class 1; those of classes 8 and 9, and of BITS; sizes.
#[derive(Clone, Copy)]
pub enum Limits {
    Nothing,
    Integer,
    Unsigned,
    Sizes,
}
