// The theorems of a file judged while it arrives, in specs/ and proofs/. It has no code.
#![tactic(auto)]
