// Document 01 as definitions that compute: what a reader must believe. This crate has no code: everything is in specs/.
#![tactic(auto)]
