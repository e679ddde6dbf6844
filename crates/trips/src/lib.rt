// What the reader and the writer promise, taken together: the round trips, and that answers agree. There is no code here.
#![tactic(auto)]
