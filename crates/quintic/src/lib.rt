// Curves of six points: de Casteljau's algorithm and subdivision at that size, the same of plain numbers, and the curve of degree five
// whose roots are the parameters where a cubic curve is perpendicular to the line to a point. Nothing here tests a range.
#![tactic(auto)]

pub mod heights;
pub mod numbers;
pub mod points;
