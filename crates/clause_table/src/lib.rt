// The clauses of refusal 20 for each definition, in arrays: those on tables, rows and their INDEX, and those on names. What SEQUENCE
// lists name and which rows their types have is collected first, so that each clause compares numbers.
#![tactic(auto)]

mod name_clause;
mod row_clause;

pub use name_clause::collect_name_clauses;
pub use row_clause::collect_row_clauses;
