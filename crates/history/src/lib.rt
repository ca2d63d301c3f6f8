// Demand 3 and its companions, over any history. This crate has no code: everything is in specs/.
#![tactic(auto)]
