// What find_roots.rs asks of a section of a curve of six points: how often it crosses the x-axis, and whether it is flat enough.
// The formulas of the baseline are those of the document.
#![tactic(auto)]

pub mod flat;
pub mod line;
