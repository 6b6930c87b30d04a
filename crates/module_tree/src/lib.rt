// The definitions, imports and uses of a module as its derivation has them: in specs/ the grammar with its parts marked, and what a tree
// says by its marks; in proofs/ that the landmarks among the classes of the tokens say the same. No code.
#![tactic(auto)]
