// The lines due in a typed set, as the walk follows them and as document 01 gives them, in specs/: the two agree. It has no code.
#![tactic(auto)]
