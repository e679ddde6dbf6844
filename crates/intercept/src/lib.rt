// What find_roots.rs takes from a section that is flat enough: the root that Newton's method comes to from the baseline's intercept.
// The formula of the derivative is that of the document.
#![tactic(auto)]

pub mod intercept;
