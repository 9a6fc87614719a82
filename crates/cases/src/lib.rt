// No code: the worked cases of document 01 as one table, in specs/Cases.antt, and that the rules give each figure.
#![tactic(auto)]
