// The enumerations of a syntax: refusal 18 on one of them.
#![tactic(auto)]

mod item;
mod label;

use definition::Span;
pub use item::judge_items;
use sub_type::Limits;

// An enumeration: what stands between its braces, and what its numbers may be.
#[derive(Clone, Copy)]
pub struct Enumeration {
    pub span: Span,
    pub limits: Limits,
}
