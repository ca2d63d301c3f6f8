// The facts of a run as rows of numbers, for comparing with the independent program. No code.
#![tactic(auto)]
