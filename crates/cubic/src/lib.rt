// Cubic curves: what basis.rs and subdivide.rs compute, in their order of operations.
// Nothing here tests the range of an argument: the public calls on a single curve are those of `bezier`.
#![tactic(auto)]

pub mod eval;
pub mod split;
