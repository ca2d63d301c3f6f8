// Document 01's table of answers in words, and that each answer is given exactly so. No code.
#![tactic(auto)]
