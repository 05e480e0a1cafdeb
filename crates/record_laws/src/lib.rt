// A line's check and its writing agree, in specs/: a row takes a line exactly when the line is a writing of items by the row.
// It has no code.
#![tactic(auto)]
