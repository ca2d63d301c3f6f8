// Demand 3 in one record over any rule book, that ours meets it, and that wrong ones do not. No code.
#![tactic(auto)]
