// That path data import accepts the productions of the W3C's grammar, for its part of it, and nothing else. There is no code here.
#![tactic(auto)]
