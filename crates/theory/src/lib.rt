// The meaning of document 01, in specs/ and proofs/: lists of sets, the rows that are due in a set, and the proper writings of a list.
// It has no code.
#![tactic(auto)]
