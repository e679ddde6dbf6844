// Least squares: fit.rs's generate_bezier, which makes one curve of marks at given parameters.
#![tactic(auto)]

mod solve;
mod sums;

ghost use Rattle.std.specs.Prelude.{◌≡◌, ◌*◌, ◌<◌, length};
ghost use Rattle.float.specs.Answer.{outcome};
ghost use Rattle.float.specs.Refusal.{answer};
ghost use Rattle.squares.specs.Squares.{generate_of};

use crate::solve::{alphas_of, place};
use crate::sums::{sums_finite, sums_of};
use float::refusal::Refusal;
use marks::mark_at;
use plane::{Curve, Point};

// The curve from the first mark to the last whose controls, out along the tangents, fit the marks at their parameters best.
pub fn generate_bezier(
    marks: &[f64],
    params: &[f64],
    start_tangent: Point,
    end_tangent: Point,
) -> Result<Curve, Refusal>
    requires { (0 < length params.now) × (length marks.now ≡ 2 * length params.now) }
    ensures { answer result ≡ outcome (generate_of marks.now params.now start_tangent end_tangent) }
{
    let s = sums_of(marks, params, start_tangent, end_tangent);
    if !sums_finite(s) {
        return Err(Refusal::NotFinite);
    }
    let a = alphas_of(s)?;
    let n = params.len();
    place(
        mark_at(marks, 0),
        mark_at(marks, n - 1),
        start_tangent,
        end_tangent,
        a,
    )
}
