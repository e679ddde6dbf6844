// From the sums to a curve: determinants, alphas and controls.
ghost use Rattle.std.specs.Prelude.{◌≡◌};
ghost use Rattle.float.specs.Answer.{outcome};
ghost use Rattle.float.specs.Refusal.{answer};
ghost use Rattle.squares.specs.Solve.{determinants_of, quotients_of, alphas_of, curve_of, place_of};

use crate::sums::Sums;
use float::refusal::Refusal;
use plane::{Curve, Point};

// The determinants of the matrices by Cramer's rule.
#[derive(Clone, Copy)]
pub struct Determinants {
    pub det_c0_c1: f64,
    pub det_c0_x: f64,
    pub det_x_c1: f64,
}

// How far the controls stand out along the tangents.
#[derive(Clone, Copy)]
pub struct Alphas {
    pub alpha_l: f64,
    pub alpha_r: f64,
}

// The three determinants.
fn determinants_of(s: Sums) -> Determinants
    ensures { result ≡ (determinants_of s).val }
{
    Determinants {
        det_c0_c1: s.c00 * s.c11 - s.c01 * s.c01,
        det_c0_x: s.c00 * s.x1 - s.c01 * s.x0,
        det_x_c1: s.x0 * s.c11 - s.x1 * s.c01,
    }
}

// The alphas of matrices that are not singular.
fn quotients_of(d: Determinants) -> Alphas
    ensures { result ≡ (quotients_of d).val }
{
    Alphas {
        alpha_l: d.det_x_c1 / d.det_c0_c1,
        alpha_r: d.det_c0_x / d.det_c0_c1,
    }
}

// The alphas, both 0 where the matrices are all but singular. Each determinant is tested, used or not.
pub fn alphas_of(s: Sums) -> Result<Alphas, Refusal>
    ensures { answer result ≡ outcome (alphas_of s) }
{
    let d = determinants_of(s);
    if !float::three_finite(d.det_c0_c1, d.det_c0_x, d.det_x_c1) {
        return Err(Refusal::NotFinite);
    }
    if float::abs(d.det_c0_c1) < 1.0e-4 {
        return Ok(Alphas {
            alpha_l: 0.0,
            alpha_r: 0.0,
        });
    }
    let a = quotients_of(d);
    if !float::two_finite(a.alpha_l, a.alpha_r) {
        return Err(Refusal::NotFinite);
    }
    Ok(a)
}

// The curve whose controls stand l and r out along the tangents.
fn curve_of(
    first: Point,
    last: Point,
    st: Point,
    et: Point,
    l: f64,
    r: f64,
) -> Result<Curve, Refusal>
    ensures { answer result ≡ outcome (curve_of first last st et l r) }
{
    let cp1 = plane::add(first, plane::scale(st, l));
    let cp2 = plane::add(last, plane::scale(et, r));
    if plane::point_finite(cp1) & plane::point_finite(cp2) {
        return Ok(Curve {
            start: first,
            cp1,
            cp2,
            end: last,
        });
    }
    Err(Refusal::NotFinite)
}

// The curve with the controls where the alphas put them or, if one is negative or next to nothing, a third of the ends' distance out.
pub fn place(first: Point, last: Point, st: Point, et: Point, a: Alphas) -> Result<Curve, Refusal>
    ensures { answer result ≡ outcome (place_of first last st et a) }
{
    let seg_length = plane::distance_to(first, last);
    let epsilon = 1.0e-6 * seg_length;
    if !float::finite(epsilon) {
        return Err(Refusal::NotFinite);
    }
    if (a.alpha_l < epsilon) | (a.alpha_r < epsilon) {
        let dist = seg_length / 3.0;
        return curve_of(first, last, st, et, dist, dist);
    }
    curve_of(first, last, st, et, a.alpha_l, a.alpha_r)
}
