// The next book is an opening book: the theorem in proofs/, no code.
#![tactic(auto)]
