// The bench lines that document 01 marks with a star, proved in specs/Cases.antt.
#![tactic(auto)]
