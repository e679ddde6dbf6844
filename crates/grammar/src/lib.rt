// The laws of the house file's format: which bytes are a file, and of which file. There is no code here.
#![tactic(auto)]
