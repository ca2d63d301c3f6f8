// The demands carried to the code: what any sequence of calls shows. This crate has no code: everything is in specs/.
#![tactic(auto)]
