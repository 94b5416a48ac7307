// No code: strict orders, insertion, the best K of a list, and "no other choice is better at any place".
#![tactic(auto)]
