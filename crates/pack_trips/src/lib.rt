// What packing and unpacking promise, taken together: there and back the same bytes, and how much shorter a packed file is. There is no code here.
#![tactic(auto)]
