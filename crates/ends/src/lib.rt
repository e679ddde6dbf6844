// Laws of one part: through every round its end marks keep the parameters 0 and 1 and lie on its curve. So a cut falls between them, and what is accepted is near every mark. specs/Rounds.antt states the law of the rounds and of the cut, proofs/ proves them; there is no code here.
#![tactic(auto)]
