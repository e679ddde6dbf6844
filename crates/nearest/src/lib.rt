// The point of a curve that is nearest to a given point, after nearest_point_bezier_root_finder.rs. The call tests its own arguments and
// refuses by number (5: an argument out of range; 6: an operation gave NaN or infinity; 8: the search went too deep).
#![tactic(auto)]

mod choose;

ghost use Rattle.std.specs.Prelude.{◌≡◌};
ghost use Rattle.quintic.specs.Tests.{heights_finite};
ghost use Rattle.nearest.specs.Nearest.{nearest_answer, nearest_by, nearest_call};

use crate::choose::choose;
use float::refusal::Refusal;
use plane::{Curve, Point};
use quintic::heights::distance_in_bezier_form;
use quintic::points::Section;
use roots::find::find_bezier_roots;

// The parameter of the nearest point and its squared distance, or the refusal. An enum of its own, as the found case has two numbers.
#[derive(Clone, Copy)]
pub enum NearestPoint {
    Found(f64, f64),
    Refused(Refusal),
}

// Whether a section's heights are finite.
fn heights_finite(s: Section) -> bool
    ensures { result ≡ heights_finite s }
{
    float::three_finite(s.w1.y, s.w2.y, s.w3.y) & float::three_finite(s.w4.y, s.w5.y, s.w6.y)
}

// The nearest point, from the curve of six points whose roots are the candidates.
fn nearest_by(curve: Curve, point: Point, form: Section) -> NearestPoint
    ensures { nearest_answer result ≡ nearest_by curve point form }
{
    let mut roots = [0.0; 2048];
    match find_bezier_roots(form, &mut roots) {
        Ok(n) => {
            let best = choose(curve, point, &roots[..n]);
            if best.fine {
                return NearestPoint::Found(best.t, best.distance_sq);
            }
            NearestPoint::Refused(Refusal::NotFinite)
        }
        Err(q) => NearestPoint::Refused(q),
    }
}

// nearest_point.rs's `nearest_point_on_curve`: the parameter of the curve's point nearest to `point`, by the roots of a curve of degree five.
pub fn nearest_point_on_curve(curve: Curve, point: Point) -> NearestPoint
    ensures { nearest_answer result ≡ nearest_call curve point }
{
    if !(plane::curve_in_range(curve) & plane::point_in_range(point)) {
        return NearestPoint::Refused(Refusal::OutOfRange);
    }
    let form = distance_in_bezier_form(curve, point);
    if !heights_finite(form) {
        return NearestPoint::Refused(Refusal::NotFinite);
    }
    nearest_by(curve, point, form)
}
