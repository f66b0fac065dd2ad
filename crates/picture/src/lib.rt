// Rows together show the line.
#![tactic(auto)]
