// Columns: where rows begin and end, the narrowest width that will do, and the fewest rows.
#![tactic(auto)]
