// The worked cases that a reader can check by hand, proved of the definitions. There is no code here.
#![tactic(auto)]
