// Refusal 20: table rules. The clauses of all definitions are collected in two parts; the first object at fault is then found, and
// what it stands against is looked for only there.
#![tactic(auto)]

mod against;
mod judge;

pub use judge::judge_tables;
