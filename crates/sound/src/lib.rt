// A list that the checker does not refuse passes exactly when it is sound, of an open outline or of a ring, in either form; and a ring's that passes begins and ends on mark 0. The laws stand in proofs/. There is no code here.
#![tactic(auto)]
