// Reading by a printed FORMAT and reading by a record agree, in specs/ and proofs/: each printed text, every line, and the judge on the same line.
// It has no code.
#![tactic(auto)]
