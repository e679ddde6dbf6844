// What the judge says of what is saved: every file of a fit passes. There is no code here.
#![tactic(auto)]
