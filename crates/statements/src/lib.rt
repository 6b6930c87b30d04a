// What is promised of the reader, of printing by DISPLAY-HINT and of the row answers, in one place. There is no code: each promise
// is about a call's contract, `Reads` of crates/reader for the reader. specs/Statements.antt lists them in the paper's order and
// words; proofs/Statements.antt proves the list.
#![tactic(auto)]
