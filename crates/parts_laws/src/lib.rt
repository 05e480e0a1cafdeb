// A list of sets and where they stand in a file: laws only; see specs/ and proofs/.
#![tactic(auto)]
