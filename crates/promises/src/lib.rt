// What the records of a day do to a book, as theorems: no code.
#![tactic(auto)]
