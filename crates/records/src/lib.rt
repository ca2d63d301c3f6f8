// What a node's tables hold, and the operations on lists of it that the rules need. This crate has no code: everything is in specs/.
#![tactic(auto)]
