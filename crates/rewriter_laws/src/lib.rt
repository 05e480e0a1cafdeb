// That the rewriter gives the one text in rewritten form that keeps the file's spellings, in specs/ and proofs/.
// It has no code.
#![tactic(auto)]
