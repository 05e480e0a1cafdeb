// The laws of what the writer lays out. It has no code.
#![tactic(auto)]
