// Laws that the proofs of every other crate cite. This crate has no code: everything is in specs/.
#![tactic(auto)]
