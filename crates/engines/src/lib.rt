// Laws of the two engines: given room for open parts they agree on every input, every list that the second accepts passes the checker, and what it leaves of the slice of open parts. specs/ states them, proofs/ proves them; there is no code here.
#![tactic(auto)]
