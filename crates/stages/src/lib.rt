// The stages of a fit that walk the marks of a part: chord lengths, a Newton step for every mark, the worst mark. The parameters are in one
// lent slice, a number for each mark, which the stages work on in place. No loop is left early: what a run met is told by one flag.
#![tactic(auto)]

mod chords;
mod steps;
mod worst;

pub use chords::chords_for_points;
pub use steps::reparameterize;
pub use worst::{Worst, error_at, larger, max_error_for_curve};
