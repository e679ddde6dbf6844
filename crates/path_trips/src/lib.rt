// What is exported and imported again: the same curves with each number as it was written, and, exported once more, the same text. There is no code here.
#![tactic(auto)]
