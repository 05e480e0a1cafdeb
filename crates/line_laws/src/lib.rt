// That the cutting of a file into lines agrees with document 01's line ends, in specs/ and proofs/.
// It has no code.
#![tactic(auto)]
