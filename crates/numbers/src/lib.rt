// Laws of rounded numbers that the proofs above cite: what an operation keeps exactly, how numbers are ordered, and how large they can get. There is no code here.
#![tactic(auto)]
