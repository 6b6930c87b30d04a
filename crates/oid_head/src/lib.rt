// What has which OID: what the heads of definitions lead to, and refusal 12, whether they reach a built-in name. All is read off a
// module whose names are known, as the crate `module_table` lays it out.
#![tactic(auto)]

mod finding;
mod head;
mod reach;

pub use finding::finding_at;
pub use head::{has_value, head_of};
pub use reach::judge_reached;
