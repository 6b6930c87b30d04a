// What is written to the start of a buffer, the rest of which stays as it was: in specs/ what that is, in proofs/ the laws of a loop that
// writes word by word and of two writers in a row, the second of which is lent the rest. No code.
#![tactic(auto)]
