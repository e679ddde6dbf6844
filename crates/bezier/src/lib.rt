// Single curves: evaluation, subdivision and Newton refinement. Each call tests its own arguments and refuses by number
// (5: an argument out of range; 6: an operation gave NaN or infinity); the work is done in `cubic` and `newton`.
#![tactic(auto)]

ghost use Rattle.std.specs.Prelude.{◌≡◌};
ghost use Rattle.float.specs.Answer.{ok, unless};
ghost use Rattle.float.specs.Refusal.{answer};
ghost use Rattle.bezier.specs.Calls.{coordinate_of, basis_call, casteljau4_call, casteljau3_call, casteljau2_call, coefficients_call, subdivide4_call, refine_call};

use cubic::eval::Coefficients;
use cubic::split::Halves;
use float::refusal::Refusal::{self, NotFinite, OutOfRange};
use plane::{Curve, Point};

// More rounds of Newton refinement than this are out of range.
pub const MOST_ROUNDS: usize = 64;

// What a run came to, or 6: the end of each run here is finite only where every operation was.
fn finite_end<T: Copy>(fine: bool, end: T) -> Result<T, Refusal>
    ensures { answer result ≡ unless 6 fine (ok end) }
{
    if !fine {
        return Err(NotFinite);
    }
    Ok(end)
}

// basis.rs's `basis`, which is a curve's `point_at_pos`.
pub fn basis(t: f64, w1: Point, w2: Point, w3: Point, w4: Point) -> Result<Point, Refusal>
    ensures { answer result ≡ basis_call t w1 w2 w3 w4 }
{
    let c = Curve {
        start: w1,
        cp1: w2,
        cp2: w3,
        end: w4,
    };
    if !(float::finite(t) & plane::curve_in_range(c)) {
        return Err(OutOfRange);
    }
    let p = cubic::eval::basis(t, w1, w2, w3, w4);
    finite_end(plane::point_finite(p), p)
}

// basis.rs's `de_casteljau4`: the same point as `basis` gives, by other roundings.
pub fn de_casteljau4(t: f64, w1: Point, w2: Point, w3: Point, w4: Point) -> Result<Point, Refusal>
    ensures { answer result ≡ casteljau4_call t w1 w2 w3 w4 }
{
    let c = Curve {
        start: w1,
        cp1: w2,
        cp2: w3,
        end: w4,
    };
    if !(float::finite(t) & plane::curve_in_range(c)) {
        return Err(OutOfRange);
    }
    let p = cubic::eval::de_casteljau4(t, w1, w2, w3, w4);
    finite_end(plane::point_finite(p), p)
}

// basis.rs's `de_casteljau3`, for a quadratic curve.
pub fn de_casteljau3(t: f64, w1: Point, w2: Point, w3: Point) -> Result<Point, Refusal>
    ensures { answer result ≡ casteljau3_call t w1 w2 w3 }
{
    let points = plane::point_in_range(w1)
        & (plane::point_in_range(w2) & plane::point_in_range(w3));
    if !(float::finite(t) & points) {
        return Err(OutOfRange);
    }
    let p = cubic::eval::de_casteljau3(t, w1, w2, w3);
    finite_end(plane::point_finite(p), p)
}

// basis.rs's `de_casteljau2`, for a line.
pub fn de_casteljau2(t: f64, w1: Point, w2: Point) -> Result<Point, Refusal>
    ensures { answer result ≡ casteljau2_call t w1 w2 }
{
    if !(float::finite(t) & (plane::point_in_range(w1) & plane::point_in_range(w2))) {
        return Err(OutOfRange);
    }
    let p = cubic::eval::de_casteljau2(t, w1, w2);
    finite_end(plane::point_finite(p), p)
}

// One coordinate of a point: x in dimension 0, else y.
fn get(p: Point, dimension: usize) -> f64
    ensures { result ≡ coordinate_of dimension p }
{
    if dimension == 0 {
        return p.x;
    }
    p.y
}

// basis.rs's `bezier_coefficients`, in dimension 0 or 1.
pub fn bezier_coefficients(
    dimension: usize,
    w1: Point,
    w2: Point,
    w3: Point,
    w4: Point,
) -> Result<Coefficients, Refusal>
    ensures { answer result ≡ coefficients_call dimension w1 w2 w3 w4 }
{
    let c = Curve {
        start: w1,
        cp1: w2,
        cp2: w3,
        end: w4,
    };
    if !((dimension < 2) & plane::curve_in_range(c)) {
        return Err(OutOfRange);
    }
    let k = cubic::eval::bezier_coefficients(
        get(w1, dimension),
        get(w2, dimension),
        get(w3, dimension),
        get(w4, dimension),
    );
    finite_end(float::three_finite(k.a, k.b, k.c), k)
}

// subdivide.rs's `subdivide4`. The point where the parts meet tells of all the others.
pub fn subdivide4(t: f64, w1: Point, w2: Point, w3: Point, w4: Point) -> Result<Halves, Refusal>
    ensures { answer result ≡ subdivide4_call t w1 w2 w3 w4 }
{
    let c = Curve {
        start: w1,
        cp1: w2,
        cp2: w3,
        end: w4,
    };
    if !(float::finite(t) & plane::curve_in_range(c)) {
        return Err(OutOfRange);
    }
    let h = cubic::split::subdivide4(t, w1, w2, w3, w4);
    finite_end(plane::point_finite(h.left.end), h)
}

// nearest_point.rs's refinement of an estimate, in at most `num_iterations` rounds.
pub fn nearest_point_on_curve_newton_raphson_with_estimate(
    curve: Curve,
    point: Point,
    estimated_t: f64,
    num_iterations: usize,
) -> Result<f64, Refusal>
    ensures { answer result ≡ refine_call curve point estimated_t num_iterations }
{
    let t_and_rounds = float::finite(estimated_t) & (num_iterations <= MOST_ROUNDS);
    if !(plane::curve_in_range(curve) & (plane::point_in_range(point) & t_and_rounds)) {
        return Err(OutOfRange);
    }
    newton::refine(curve, point, estimated_t, num_iterations)
}
