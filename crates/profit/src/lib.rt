// No code: article 31 in its own form, and that the book's formula is the same.
#![tactic(auto)]
