// What a change of reader, and of a URI, leaves of a drawing.
#![tactic(auto)]
