// How many marks an outline may have, and how many bytes a file that a program reads.
#![tactic(auto)]

// The most marks that a fit by blocks, the checker and a house file take: a mainsail, traced at full rate.
pub const MOST_MARKS: usize = 100000;

// The most bytes that the programs behind the bench's command read: the longest house file of 4,096 marks, with 4,095 curves, their worst marks, and the parameters.
pub const MOST_READ: usize = 434120;
