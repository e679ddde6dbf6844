// Laws of the fits' answers: every list that the joined, the ring or the direct fit accepts passes the checker with the same marks and tolerance, a ring's curves begin and end on mark 0, and a fit refuses by 1 to 6 alone. specs/ states them, proofs/ proves them; there is no code here.
#![tactic(auto)]
