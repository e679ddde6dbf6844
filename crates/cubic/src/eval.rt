// basis.rs: the weighted basis, de Casteljau's algorithm and the coefficients, in the Rust's order of operations.
ghost use Rattle.std.specs.Prelude.{◌≡◌};
ghost use Rattle.cubic.specs.Basis.{basis as basis_of, point_at, casteljau2, casteljau3, casteljau4, coefficients_of};

use plane::{Curve, Point};

// The numbers a, b, c, d of a·t³ + b·t² + c·t + d.
#[derive(Clone, Copy)]
pub struct Coefficients {
    pub a: f64,
    pub b: f64,
    pub c: f64,
    pub d: f64,
}

// The coefficients in one dimension, from that coordinate of the four points.
pub fn bezier_coefficients(w1: f64, w2: f64, w3: f64, w4: f64) -> Coefficients
    ensures { result ≡ (coefficients_of w1 w2 w3 w4).val }
{
    Coefficients {
        a: w4 - 3.0 * w3 + 3.0 * w2 - w1,
        b: 3.0 * w3 - 6.0 * w2 + 3.0 * w1,
        c: 3.0 * w2 - 3.0 * w1,
        d: w1,
    }
}

// The cubic weighted basis function.
pub fn basis(t: f64, w1: Point, w2: Point, w3: Point, w4: Point) -> Point
    ensures { result ≡ (basis_of t w1 w2 w3 w4).val }
{
    let t_squared = t * t;
    let t_cubed = t_squared * t;
    let one_minus_t = 1.0 - t;
    let one_minus_t_squared = one_minus_t * one_minus_t;
    let one_minus_t_cubed = one_minus_t_squared * one_minus_t;
    let a = plane::scale(w1, one_minus_t_cubed);
    let b = plane::scale(plane::scale(plane::scale(w2, 3.0), one_minus_t_squared), t);
    let c = plane::scale(plane::scale(plane::scale(w3, 3.0), one_minus_t), t_squared);
    let d = plane::scale(w4, t_cubed);
    plane::add(plane::add(plane::add(a, b), c), d)
}

// The point of a curve at t.
pub fn point_at_pos(c: Curve, t: f64) -> Point
    ensures { result ≡ (point_at c t).val }
{
    basis(t, c.start, c.cp1, c.cp2, c.end)
}

// de Casteljau's algorithm for lines.
pub fn de_casteljau2(t: f64, w1: Point, w2: Point) -> Point
    ensures { result ≡ (casteljau2 t w1 w2).val }
{
    plane::add(plane::scale(w1, 1.0 - t), plane::scale(w2, t))
}

// de Casteljau's algorithm for quadratic curves.
pub fn de_casteljau3(t: f64, w1: Point, w2: Point, w3: Point) -> Point
    ensures { result ≡ (casteljau3 t w1 w2 w3).val }
{
    let wn1 = de_casteljau2(t, w1, w2);
    let wn2 = de_casteljau2(t, w2, w3);
    de_casteljau2(t, wn1, wn2)
}

// de Casteljau's algorithm for cubic curves.
pub fn de_casteljau4(t: f64, w1: Point, w2: Point, w3: Point, w4: Point) -> Point
    ensures { result ≡ (casteljau4 t w1 w2 w3 w4).val }
{
    let wn1 = de_casteljau2(t, w1, w2);
    let wn2 = de_casteljau2(t, w2, w3);
    let wn3 = de_casteljau2(t, w3, w4);
    de_casteljau3(t, wn1, wn2, wn3)
}
