// No code: the book, demands 2 and 3 as named statements with their proofs, and the fixed examples.
#![tactic(auto)]
