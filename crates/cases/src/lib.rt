// Inputs and replies computed from the definitions, in specs/: document 01's cases marked P and a few worked examples. It has no code.
#![tactic(auto)]
