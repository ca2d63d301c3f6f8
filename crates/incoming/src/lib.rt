// What came in with an event: the one way in which statements reach a packet. No code.
#![tactic(auto)]
