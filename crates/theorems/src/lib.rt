// The theorems, in proofs/Theorems.antt. It has no code.
#![tactic(auto)]
