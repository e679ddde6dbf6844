// find_roots.rs: the roots of a curve of six points, found by halving it until each part is flat enough for Newton's method.
#![tactic(auto)]

pub mod find;
